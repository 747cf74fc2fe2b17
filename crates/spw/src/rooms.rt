//! Rooms for bytes that go out.

ghost use Rattle.std.specs.Prelude.{◌≡◌, ◌≤◌, length};
ghost use Rattle.spw.specs.Rooms.{put_front};

/// Puts bytes at the front of a room, and leaves what is after them. The condition is that there is room for them.
pub fn put_front(room: &mut [u8], bytes: &[u8])
    requires { length bytes.now ≤ length room.old }
    ensures { room.new ≡ put_front room.old bytes.now }
{
    room[..bytes.len()].copy_from_slice(bytes);
}

//! The number of what C sees.

ghost use Rattle.std.specs.Prelude.{◌≡◌};
ghost use Rattle.single_node_c.specs.declared.version.TheConstants.{VERSION};

/// It rises with each change of a call, a struct or a number of the two headers.
pub const VERSION: u32 = 6;

/// The number of the header that this was made with.
#[unsafe(no_mangle)]
pub extern "C" fn sandbar_version() -> u32
    ensures { result ≡ VERSION }
{
    VERSION
}

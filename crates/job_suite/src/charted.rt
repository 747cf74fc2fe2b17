//! Which verdicts the programs of a node give, by the charts of a table of which they are the image.

use crate::candidates::Shape;
use crate::maker::{Area, Maker, READ, RMW, WRITE};
use crate::search::Findings;
use crate::trials::Bench;
use charts::{ChartLine, map_cells, point_in};
use policy::Policy;
use regions::{ByteSet, Kinds, Point, PointRegion, Stretch};
use rmap::{BOOT_WINDOW, CONTROL_SIZE, Kind, LOAD_REGISTER, LOAD_RESULT_SIZE, STAGING_SIZE};
use std::alloc::{AllocError, Global};

/// The chart of a table at port 0, and the slots whose program is its image.
#[derive(Debug, Drop)]
pub struct Chart {
    /// The slots.
    pub slots: Vec<u8>,
    /// The lines, each with points at which the same rules are asked.
    pub lines: Vec<ChartLine>,
}

impl Chart {
    /// The chart of a table, for these slots.
    ///
    /// # Errors
    ///
    /// An error if memory is refused.
    pub fn of(alloc: Global, policy: &Policy, slots: &[u8]) -> Result<Chart, AllocError> {
        let table = policy.table_at(alloc, 0)?;
        let all = PointRegion::whole();
        Ok(Chart {
            slots: Vec::from_slice(alloc, slots)?,
            lines: map_cells(alloc, &all, table.rules())?,
        })
    }

    /// Whether the chart is of a slot.
    pub fn has(&self, slot: u8) -> bool {
        self.slots.contains(&slot)
    }
}

/// The kinds of commands of a slot.
fn kinds_of(slot: u8) -> Kinds {
    Kinds {
        read: slot == 0 || slot == 3,
        write: slot == 1 || slot == 3,
        rmw: slot == 2 || slot == 3,
    }
}

/// The commands of these kinds to an extended address, with all their bytes in `size` bytes from `base` on.
fn range(kinds: Kinds, extended: u8, base: u32, size: u32) -> PointRegion {
    let addresses = Stretch {
        start: u64::from(base),
        end: u64::from(base) + u64::from(size),
    };
    let mut region = PointRegion::whole();
    region.kinds = kinds;
    region.extended = ByteSet::only(extended);
    region.first = addresses;
    region.last = addresses;
    region
}

/// The commands of these kinds to exactly this many bytes of the load register.
fn register(kinds: Kinds, size: u32) -> PointRegion {
    let base = u64::from(LOAD_REGISTER);
    let mut region = range(kinds, BOOT_WINDOW, LOAD_REGISTER, size);
    region.first.end = base + 1;
    region.last.start = base + u64::from(size.saturating_sub(1));
    region
}

/// The code of commands of a kind.
fn code_for(kind: Kind) -> u8 {
    match kind {
        Kind::Read => READ,
        Kind::Write => WRITE,
        Kind::Rmw | Kind::Unused => RMW,
    }
}

/// How many bytes a command of a point has; a read-modify-write of one address has none.
fn length_at(point: &Point) -> u32 {
    let count = point.last.wrapping_sub(point.first).wrapping_add(1);
    if point.kind == Kind::Rmw && count == 1 {
        0
    } else {
        count
    }
}

/// The command of a point.
fn shape_at(maker: &Maker, point: &Point) -> Shape {
    let code = code_for(point.kind);
    let mut shape = maker.shape(code, point.extended, point.first, length_at(point));
    shape.key = point.key;
    shape.initiator = point.initiator;
    shape
}

impl Chart {
    /// Tries a command of each line, as far as one lies in the region.
    fn search(
        &self,
        alloc: Global,
        bench: &Bench,
        maker: &Maker,
        findings: &mut Findings,
        slot: u8,
        region: &PointRegion,
    ) -> Result<(), AllocError> {
        for place in 0..self.lines.len() {
            if let Some(point) = point_in(self.lines.as_slice(), place, region) {
                findings.judge(alloc, bench, slot, shape_at(maker, &point))?;
            }
        }
        Ok(())
    }

    /// Tries commands of a slot at a bank.
    ///
    /// # Errors
    ///
    /// An error if memory is refused.
    pub fn search_bank(
        &self,
        alloc: Global,
        bench: &Bench,
        maker: &Maker,
        findings: &mut Findings,
        slot: u8,
        area: Area,
    ) -> Result<(), AllocError> {
        let region = range(kinds_of(slot), area.extended, area.base, area.size);
        self.search(alloc, bench, maker, findings, slot, &region)
    }

    /// Tries commands to the boot window.
    ///
    /// # Errors
    ///
    /// An error if memory is refused.
    pub fn search_window(
        &self,
        alloc: Global,
        bench: &Bench,
        maker: &Maker,
        findings: &mut Findings,
    ) -> Result<(), AllocError> {
        let staging = range(kinds_of(3), BOOT_WINDOW, 0, STAGING_SIZE);
        self.search(alloc, bench, maker, findings, 3, &staging)?;
        let results = register(kinds_of(0), LOAD_RESULT_SIZE);
        self.search(alloc, bench, maker, findings, 3, &results)?;
        let controls = register(kinds_of(1), CONTROL_SIZE);
        self.search(alloc, bench, maker, findings, 3, &controls)
    }
}

//! The regions at which a question is answered no.

ghost use Rattle.std.specs.Prelude.{◌≤◌, ◌<◌, ◌^◌, length, IfOk, OnOk};
ghost use Rattle.regions.specs.Cells.{AreCellsOf, IsFilled};
ghost use Rattle.regions.specs.Questions.{IsCutBy, IsSettledBy, IsUnderWay};

use crate::points::Point;
use crate::questions::PointQuestion;
use crate::regions::PointRegion;
use crate::sides::{SIDES, side_of};
use std::alloc::{AllocError, Global};

/// A region at all points of which a question has one answer, and one of its points that a command has.
#[derive(Clone, Copy, Debug, PartialEq, Eq)]
pub struct Cell {
    /// The region.
    pub region: PointRegion,
    /// The point.
    pub point: Point,
}

/// Appends the cells of a region. Each test before that of a number has one outcome at all points of the region. While
/// sides are left, the points meet the conditions of its shape, except the last `left` ones.
///
/// It calls itself as deep as [`search`](crate::search) does.
fn fill_from<Q: PointQuestion>(
    question: &Q,
    region: &PointRegion,
    number: usize,
    shape: &PointRegion,
    left: u8,
    cells: &mut Vec<Cell>,
) -> Result<(), AllocError>
    requires few { length (Q.tests question.now) < 2 ^ 64 }
    requires sides { left ≤ SIDES }
    requires settled { IsSettledBy (Q.tests question.now) (Q.holds question.now) }
    requires cut { IsCutBy (Q.tests question.now) number region.now }
    requires under_way { IsUnderWay (Q.tests question.now) number shape.now left region.now }
    ensures { OnOk result (IsFilled (Q.tests question.now) (Q.holds question.now)
        (Q.fails question.now) region.now cells.old.items cells.new.items) }
{
    let mut part = *region;
    let mut at = number;
    let mut cutter = *shape;
    let mut sides = left;
    'cuts: loop {
        let Some(point) = part.witness() else {
            return Ok(());
        };
        if sides == 0 {
            let Some(next) = question.shape(at) else {
                if !question.ask(&point) {
                    cells.push(Cell {
                        region: part,
                        point,
                    })?;
                }
                return Ok(());
            };
            if part.is_within(&next) {
                at += 1;
                continue 'cuts;
            }
            if !part.may_meet(&next) {
                at += 1;
                continue 'cuts;
            }
            cutter = next;
            sides = SIDES;
            continue 'cuts;
        }
        let (inside, outside) = part.cut(&cutter, side_of(sides));
        fill_from(question, &outside, at + 1, &cutter, 0, cells)?;
        part = inside;
        if sides == 1 {
            sides = 0;
            at += 1;
            continue 'cuts;
        }
        sides -= 1;
    }
}

/// The cells at whose points the answer is no. Each point that a command has lies in only one of them, with the
/// outcomes of the tests at the point of the cell. Or it lies in none, and then the answer is yes.
///
/// # Errors
///
/// Only if memory is refused.
pub fn cells<Q: PointQuestion>(alloc: Global, question: &Q) -> Result<Vec<Cell>, AllocError>
    requires few { length (Q.tests question.now) < 2 ^ 64 }
    requires settled { IsSettledBy (Q.tests question.now) (Q.holds question.now) }
    ensures { IfOk result (λ cells. AreCellsOf (Q.tests question.now) (Q.holds question.now)
        (Q.fails question.now) cells.items) }
{
    let whole = PointRegion::whole();
    let mut cells = Vec::new(alloc);
    fill_from(question, &whole, 0, &whole, 0, &mut cells)?;
    Ok(cells)
}

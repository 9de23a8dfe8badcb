// Why a table, an image or a call is refused. A refusal has the number of docs/RULES.md and the words of docs/SHEET.md.
ghost use Rattle.std.specs.Prelude.{◌≡◌};
ghost use Rattle.table.specs.Refusals.{number};

use std::error::Error;
use std::fmt;

// What was not met, the first by the order of the call that asks.
#[derive(Clone, Copy, Debug, PartialEq, Eq)]
pub enum Refusal {
    Vertices,
    Edges,
    Starts,
    Target,
    Row,
    CountEach,
    Reads,
    Room,
    Cycle,
    Mark,
    Version,
    Length,
    Vertex,
    ZeroLength,
}

// Its number.
impl From<Refusal> for u32 {
    ghost from_gives = { λ refusal given. given ≡ number refusal };

    fn from(refusal: Refusal) -> u32 {
        match refusal {
            Refusal::Vertices => 1,
            Refusal::Edges => 2,
            Refusal::Starts => 3,
            Refusal::Target => 4,
            Refusal::Row => 5,
            Refusal::CountEach => 6,
            Refusal::Reads => 7,
            Refusal::Room => 8,
            Refusal::Cycle => 9,
            Refusal::Mark => 10,
            Refusal::Version => 11,
            Refusal::Length => 12,
            Refusal::Vertex => 13,
            Refusal::ZeroLength => 20,
        }
    }
}

// Its words.
impl fmt::Display for Refusal {
    fn fmt<W: fmt::Write>(&self, f: &mut fmt::Formatter<W>) -> fmt::Result {
        f.write_str(match self {
            Refusal::Vertices => "the table has more than 2,048 vertices",
            Refusal::Edges => "the table has more than 8,192 edges",
            Refusal::Starts => {
                "the starts don't begin with 0, fall, or don't end with the number of edges"
            }
            Refusal::Target => "an edge leads to a vertex that is not there",
            Refusal::Row => {
                "a row doesn't rise strictly: an edge stands twice, or the row is out of order"
            }
            Refusal::CountEach => "the counts are not as many as the vertices",
            Refusal::Reads => "the counts sum above 1,099,511,627,775",
            Refusal::Room => "there is not enough room for the result",
            Refusal::Cycle => {
                "the table has a directed cycle, and a self-loop is one; fold --rings takes it"
            }
            Refusal::Mark => "the image is shorter than 13 bytes, or does not begin with S B T",
            Refusal::Version => "the image has another version than 1 and 2",
            Refusal::Length => "the image is longer or shorter than its header says",
            Refusal::Vertex => "the table does not have a vertex that was asked for",
            Refusal::ZeroLength => "a length is 0",
        })
    }
}

impl Error for Refusal {}

// The library's calls for a C program: look, load and write, list, judge and fold. The number is returned, and each other field is handed out through a lent number.
// A C program lends slices one by one, and reads numbers: so these calls alone take a table in parts and answer a refusal by its number.
#![tactic(auto)]

ghost use Rattle.std.specs.Prelude.{◌≡◌, []};
ghost use Rattle.image.specs.Looking.{Seen, Looked, Loaded, seen_of};
ghost use Rattle.writing.specs.Writing.{Extent, Written, extent_of};
ghost use Rattle.listing.specs.Listing.{Found, ListDone, found_of};
ghost use Rattle.judging.specs.Judging.{Judgement, JudgeDone, judgement_of};
ghost use Rattle.rule.specs.declared.Choosing.TheVariants.{Sum, Weakest};
ghost use Rattle.rule.specs.Way.{plain, ringed, the_fold};
ghost use Rattle.folding.specs.Folding.{Outcome, FoldDone, outcome_of};

use folding::Folded;
use image::Sizes;
use layout::Contents;
use table::{Refusal, Rows, Table};

// Hands out version, n and m, or 0 for each where an image is refused, and answers the number.
fn hand_out_sizes(
    seen: Result<Sizes, Refusal>,
    version: &mut u32,
    vertices: &mut usize,
    edges: &mut usize,
) -> u32
    ensures { seen_of seen ≡ record { number = result; version = version.new; vertices = vertices.new; edges = edges.new } }
{
    match seen {
        Ok(sizes) => {
            *version = sizes.version;
            *vertices = sizes.vertices;
            *edges = sizes.edges;
            0
        }
        Err(refusal) => {
            *version = 0;
            *vertices = 0;
            *edges = 0;
            u32::from(refusal)
        }
    }
}

// Hands out a length, or how many were found, or 0 where the call refuses, and answers the number.
fn hand_out(answer: Result<usize, Refusal>, out: &mut usize) -> u32
    ensures extent { extent_of answer ≡ record { number = result; length = out.new } }
    ensures found { found_of answer ≡ record { number = result; found = out.new } }
{
    match answer {
        Ok(value) => {
            *out = value;
            0
        }
        Err(refusal) => {
            *out = 0;
            u32::from(refusal)
        }
    }
}

// Hands out how many were folded, how many candidates remain and the new edge count, or 0 for each where the fold refuses, and answers the number.
fn hand_out_folded(
    done: Result<Folded, Refusal>,
    folded: &mut usize,
    left: &mut usize,
    edges: &mut usize,
) -> u32
    ensures { outcome_of done ≡ record { number = result; folded = folded.new; left = left.new; edges = edges.new } }
{
    match done {
        Ok(counts) => {
            *folded = counts.folded;
            *left = counts.left;
            *edges = counts.edges;
            0
        }
        Err(refusal) => {
            *folded = 0;
            *left = 0;
            *edges = 0;
            u32::from(refusal)
        }
    }
}

// Looks at an image, and hands out its version, n and m.
#[unsafe(no_mangle)]
pub extern "C" fn gohardim_look(
    image: &[u8],
    version: &mut u32,
    vertices: &mut usize,
    edges: &mut usize,
) -> u32
    ensures { Looked image.now
        (record { number = result; version = version.new; vertices = vertices.new; edges = edges.new }) }
{
    hand_out_sizes(image::look(image), version, vertices, edges)
}

// Loads the contents of an image at the fronts of four lent slices, and hands out its version, n and m.
#[unsafe(no_mangle)]
pub extern "C" fn gohardim_load(
    image: &[u8],
    starts: &mut [u32],
    targets: &mut [u32],
    counts: &mut [u64],
    lengths: &mut [u16],
    version: &mut u32,
    vertices: &mut usize,
    edges: &mut usize,
) -> u32
    ensures { Loaded
        image.now
        (record {
          table = record { rows = record { starts = starts.old; targets = targets.old }; counts = counts.old };
          lengths = lengths.old;
        })
        (record {
          table = record { rows = record { starts = starts.new; targets = targets.new }; counts = counts.new };
          lengths = lengths.new;
        })
        (record { number = result; version = version.new; vertices = vertices.new; edges = edges.new }) }
{
    let loaded = image::load(image, starts, targets, counts, lengths);
    hand_out_sizes(loaded, version, vertices, edges)
}

// Writes the image of a table, of version 1, at the front of a lent slice, and hands out its length.
#[unsafe(no_mangle)]
pub extern "C" fn gohardim_write(
    starts: &[u32],
    targets: &[u32],
    counts: &[u64],
    image: &mut [u8],
    length: &mut usize,
) -> u32
    ensures { Written
        1
        (record {
          table = record { rows = record { starts = starts.now; targets = targets.now }; counts = counts.now };
          lengths = [];
        })
        image.old
        image.new
        (record { number = result; length = length.new }) }
{
    let rows = Rows { starts, targets };
    let table = Table { rows, counts };
    hand_out(image::write(&table, image), length)
}

// Writes the image of a table with its lengths, of version 2, at the front of a lent slice, and hands out its length.
#[unsafe(no_mangle)]
pub extern "C" fn gohardim_write_lengths(
    starts: &[u32],
    targets: &[u32],
    counts: &[u64],
    lengths: &[u16],
    image: &mut [u8],
    length: &mut usize,
) -> u32
    ensures { Written
        2
        (record {
          table = record { rows = record { starts = starts.now; targets = targets.now }; counts = counts.now };
          lengths = lengths.now;
        })
        image.old
        image.new
        (record { number = result; length = length.new }) }
{
    let rows = Rows { starts, targets };
    let table = Table { rows, counts };
    let contents = Contents { table, lengths };
    hand_out(image::write_lengths(&contents, image), length)
}

// Lists the superbubbles of a table at the front of a lent slice, and hands out how many were found.
#[unsafe(no_mangle)]
pub extern "C" fn gohardim_list(
    starts: &[u32],
    targets: &[u32],
    out: &mut [u32],
    found: &mut usize,
) -> u32
    ensures { ListDone (record { starts = starts.now; targets = targets.now }) out.old out.new
        (record { number = result; found = found.new }) }
{
    let rows = Rows { starts, targets };
    hand_out(listing::list(&rows, out), found)
}

// Judges one pair, and hands out yes or no and the number of vertices in U.
#[unsafe(no_mangle)]
pub extern "C" fn gohardim_judge(
    starts: &[u32],
    targets: &[u32],
    s: u32,
    t: u32,
    yes: &mut bool,
    size: &mut u32,
) -> u32
    ensures { JudgeDone (record { starts = starts.now; targets = targets.now }) s t
        (record { number = result; yes = yes.new; size = size.new }) }
{
    let rows = Rows { starts, targets };
    match judging::judge(&rows, s, t) {
        Ok(vertices) => {
            *yes = vertices.is_some();
            *size = vertices.unwrap_or(0);
            0
        }
        Err(refusal) => {
            *yes = false;
            *size = 0;
            u32::from(refusal)
        }
    }
}

// Folds a table of version 1 by a budget into a second set of slices, and hands out how many were folded, how many candidates remain and the new edge count.
#[unsafe(no_mangle)]
pub extern "C" fn gohardim_fold(
    starts: &[u32],
    targets: &[u32],
    counts: &[u64],
    budget: u32,
    starts2: &mut [u32],
    targets2: &mut [u32],
    counts2: &mut [u64],
    folded: &mut usize,
    left: &mut usize,
    edges: &mut usize,
) -> u32
    ensures { FoldDone
        (the_fold (plain Sum))
        (record { rows = record { starts = starts.now; targets = targets.now }; counts = counts.now })
        budget
        (record { rows = record { starts = starts2.old; targets = targets2.old }; counts = counts2.old })
        (record { rows = record { starts = starts2.new; targets = targets2.new }; counts = counts2.new })
        (record { number = result; folded = folded.new; left = left.new; edges = edges.new }) }
{
    let rows = Rows { starts, targets };
    let table = Table { rows, counts };
    let done = folding::fold(&table, budget, starts2, targets2, counts2);
    hand_out_folded(done, folded, left, edges)
}

// Folds a table of version 2 by a budget into a second set of slices, and hands out how many were folded, how many candidates remain and the new edge count.
#[unsafe(no_mangle)]
pub extern "C" fn gohardim_fold_weakest(
    starts: &[u32],
    targets: &[u32],
    counts: &[u64],
    budget: u32,
    starts2: &mut [u32],
    targets2: &mut [u32],
    counts2: &mut [u64],
    folded: &mut usize,
    left: &mut usize,
    edges: &mut usize,
) -> u32
    ensures { FoldDone
        (the_fold (plain Weakest))
        (record { rows = record { starts = starts.now; targets = targets.now }; counts = counts.now })
        budget
        (record { rows = record { starts = starts2.old; targets = targets2.old }; counts = counts2.old })
        (record { rows = record { starts = starts2.new; targets = targets2.new }; counts = counts2.new })
        (record { number = result; folded = folded.new; left = left.new; edges = edges.new }) }
{
    let rows = Rows { starts, targets };
    let table = Table { rows, counts };
    let by_weakest = folding::fold_weakest(&table, budget, starts2, targets2, counts2);
    hand_out_folded(by_weakest, folded, left, edges)
}

// Folds any well-formed table of version 1, cycles included, by a budget into a second set of slices, and hands out how many were folded, how many candidates remain and the new
// edge count.
#[unsafe(no_mangle)]
pub extern "C" fn gohardim_fold_rings(
    starts: &[u32],
    targets: &[u32],
    counts: &[u64],
    budget: u32,
    starts2: &mut [u32],
    targets2: &mut [u32],
    counts2: &mut [u64],
    folded: &mut usize,
    left: &mut usize,
    edges: &mut usize,
) -> u32
    ensures { FoldDone
        (the_fold (ringed Sum))
        (record { rows = record { starts = starts.now; targets = targets.now }; counts = counts.now })
        budget
        (record { rows = record { starts = starts2.old; targets = targets2.old }; counts = counts2.old })
        (record { rows = record { starts = starts2.new; targets = targets2.new }; counts = counts2.new })
        (record { number = result; folded = folded.new; left = left.new; edges = edges.new }) }
{
    let rows = Rows { starts, targets };
    let table = Table { rows, counts };
    let ringed = folding::fold_rings(&table, budget, starts2, targets2, counts2);
    hand_out_folded(ringed, folded, left, edges)
}

// Folds any well-formed table of version 2, cycles included, by a budget into a second set of slices, and hands out how many were folded, how many candidates remain and the new
// edge count.
#[unsafe(no_mangle)]
pub extern "C" fn gohardim_fold_rings_weakest(
    starts: &[u32],
    targets: &[u32],
    counts: &[u64],
    budget: u32,
    starts2: &mut [u32],
    targets2: &mut [u32],
    counts2: &mut [u64],
    folded: &mut usize,
    left: &mut usize,
    edges: &mut usize,
) -> u32
    ensures { FoldDone
        (the_fold (ringed Weakest))
        (record { rows = record { starts = starts.now; targets = targets.now }; counts = counts.now })
        budget
        (record { rows = record { starts = starts2.old; targets = targets2.old }; counts = counts2.old })
        (record { rows = record { starts = starts2.new; targets = targets2.new }; counts = counts2.new })
        (record { number = result; folded = folded.new; left = left.new; edges = edges.new }) }
{
    let rows = Rows { starts, targets };
    let table = Table { rows, counts };
    let ringed_weakest = folding::fold_rings_weakest(&table, budget, starts2, targets2, counts2);
    hand_out_folded(ringed_weakest, folded, left, edges)
}

// The operations `s`, `w`, `x`, `k` and `d`: an image shown, written without lengths and with them, looked at and loaded.
use crate::body::{BadCase, Body};
use crate::most::{EDGES, IMAGE, VERTICES};
use crate::output::Output;
use crate::store::Store;
use image::Sizes;
use layout::Header;
use table::Refusal;

// The operation `s`: a stream.
pub fn show_case(body: Body<'_>, out: &mut Output) -> Result<(), BadCase> {
    let stream = body.stream()?;
    let mut text = [0u8; show_bytes::LONGEST];
    let answer = show_bytes::answer(stream, &mut text);
    out.bytes(&text[..answer.length]);
    Ok(())
}

// Writes an image into a slice of so many bytes, which are all 165, and puts a name, the answer, and the slice as the call left it.
fn put_written<F>(out: &mut Output, name: &[u8], room: usize, write: F) -> Result<(), BadCase>
where
    F: Fn(&mut [u8]) -> Result<usize, Refusal>,
    requires { F.IsAlwaysCallable write }
{
    let mut image = [165u8; IMAGE];
    let image = image.get_mut(..room).ok_or(BadCase)?;
    let written = write(image);
    out.answer(name, written.map(|length| [length as u64]));
    out.byte(b'\n');
    out.bytes(image);
    out.byte(b'\n');
    Ok(())
}

// The operation `w`: the room of the image slice, then a table.
pub fn write_case(mut body: Body<'_>, store: &mut Store, out: &mut Output) -> Result<(), BadCase> {
    let room = body.length()?;
    let table = store.table(body)?;
    put_written(out, b"wrote", room, |image| image::write(&table, image))
}

// The operation `x`: the same with the lengths of the vertices.
pub fn write_lengths_case(
    mut body: Body<'_>,
    store: &mut Store,
    out: &mut Output,
) -> Result<(), BadCase> {
    let room = body.length()?;
    let contents = store.contents(body)?;
    put_written(out, b"wrote_lengths", room, |image| {
        image::write_lengths(&contents, image)
    })
}

// Puts a name, and what look or load answered: version, n and m.
fn put_sizes(out: &mut Output, name: &[u8], sizes: Result<Sizes, Refusal>) {
    out.answer(
        name,
        sizes.map(|sizes| [
            u64::from(sizes.version),
            sizes.vertices as u64,
            sizes.edges as u64,
        ]),
    );
}

// Loads an image into slices, and puts a name, the answer and these as the call left them.
fn put_loaded(
    out: &mut Output,
    name: &[u8],
    stream: &[u8],
    starts: &mut [u32],
    targets: &mut [u32],
    counts: &mut [u64],
    lengths: &mut [u16],
) {
    put_sizes(
        out,
        name,
        image::load(stream, starts, targets, counts, lengths),
    );
    out.byte(b'\n');
    out.numbers(starts);
    out.numbers(targets);
    out.numbers(counts);
    out.numbers(lengths);
    out.byte(b'\n');
}

// The operation `k`: a stream. Where look accepts it, it is loaded into slices of exactly n + 1, m and n, and as many lengths as its version has. Their numbers are all 7.
pub fn look_case(body: Body<'_>, out: &mut Output) -> Result<(), BadCase> {
    let stream = body.stream()?;
    let looked = image::look(stream);
    put_sizes(out, b"look", looked);
    let Ok(sizes) = looked else {
        out.byte(b'\n');
        return Ok(());
    };
    let n = sizes.vertices;
    let mut starts = [7u32; VERTICES];
    let mut targets = [7u32; EDGES];
    let mut counts = [7u64; VERTICES];
    let mut lengths = [7u16; VERTICES];
    let starts = &mut starts[..n + 1];
    let targets = &mut targets[..sizes.edges];
    let counts = &mut counts[..n];
    let lengths = &mut lengths[..Header::lengths(sizes.version, n)];
    put_loaded(out, b" load", stream, starts, targets, counts, lengths);
    Ok(())
}

// The operation `d`: the rooms of the four slices, whose numbers are all 7, then a stream.
pub fn load_case(mut body: Body<'_>, out: &mut Output) -> Result<(), BadCase> {
    let room_starts = body.length()?;
    let room_targets = body.length()?;
    let room_counts = body.length()?;
    let room_lengths = body.length()?;
    let stream = body.stream()?;
    let mut starts = [7u32; VERTICES];
    let mut targets = [7u32; EDGES];
    let mut counts = [7u64; VERTICES];
    let mut lengths = [7u16; VERTICES];
    let starts = starts.get_mut(..room_starts).ok_or(BadCase)?;
    let targets = targets.get_mut(..room_targets).ok_or(BadCase)?;
    let counts = counts.get_mut(..room_counts).ok_or(BadCase)?;
    let lengths = lengths.get_mut(..room_lengths).ok_or(BadCase)?;
    put_loaded(out, b"load", stream, starts, targets, counts, lengths);
    Ok(())
}

// The operations `t`, `l` and `j`: a table checked, its superbubbles listed, and one pair judged.
use crate::body::{BadCase, Body};
use crate::most::LIST;
use crate::output::Output;
use crate::store::Store;

// The operation `t`: a table.
pub fn check_case(body: Body<'_>, store: &mut Store, out: &mut Output) -> Result<(), BadCase> {
    let table = store.table(body)?;
    out.answer(b"check", table.rows.check().map(|_| []));
    out.answer(b" counted", table.check().map(|_| []));
    out.byte(b'\n');
    Ok(())
}

// The operation `l`: the room of the list slice, whose numbers are all 7, then a table without counts. Puts that much of the slice as the call left it.
pub fn list_case(mut body: Body<'_>, store: &mut Store, out: &mut Output) -> Result<(), BadCase> {
    let room = body.length()?;
    let rows = store.rows(body)?;
    let mut list = [7u32; LIST];
    let list = list.get_mut(..room).ok_or(BadCase)?;
    let listed = listing::list(&rows, list);
    out.answer(b"list", listed.map(|found| [found as u64]));
    out.byte(b'\n');
    out.numbers(list);
    out.byte(b'\n');
    Ok(())
}

// The operation `j`: the pair, then a table without counts.
pub fn judge_case(mut body: Body<'_>, store: &mut Store, out: &mut Output) -> Result<(), BadCase> {
    let s = body.number()?;
    let t = body.number()?;
    let rows = store.rows(body)?;
    let judged = judging::judge(&rows, s, t);
    out.answer(
        b"judge",
        judged.map(|size| match size {
            Some(size) => [1, u64::from(size)],
            None => [0, 0],
        }),
    );
    out.byte(b'\n');
    Ok(())
}

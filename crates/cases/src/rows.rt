// Every row of a table: the pattern of its rank, the rank of its pattern, and the rows after and before it round the circuit.
use crate::says;
use patterns::neighbours::{next, previous};
use patterns::ranking::{rank, unrank};

// The row with number i from 0, of n bytes; no bytes where there is none.
fn row(table: &[u8], n: usize, i: usize) -> &[u8] {
    let mut rest = table;
    for _ in 0..i {
        if n <= rest.len() {
            rest = &rest[n..];
        }
    }
    if n <= rest.len() {
        &rest[..n]
    } else {
        &rest[..0]
    }
}

// A row put into a pattern, 0 beyond its end.
fn load(r: &[u8], p: &mut [u8]) {
    for (j, x) in p.iter_mut().enumerate() {
        *x = r.get(j).copied().unwrap_or(0);
    }
}

// What a call left, and whether it is the row.
fn left(rt: &impl Print, what: &[u8], p: &[u8], r: &[u8]) -> bool {
    says::text(rt, what);
    says::pattern(rt, p);
    &*p == r
}

fn by_rank(rt: &impl Print, place: u64, r: &[u8]) -> bool {
    says::text(rt, b", rank ");
    match rank(r) {
        Ok(k) => {
            says::number(rt, k);
            k == place
        }
        Err(_) => false,
    }
}

fn by_unrank(rt: &impl Print, place: u64, p: &mut [u8], r: &[u8]) -> bool {
    let _ = unrank(place, p);
    left(rt, b", unrank ", p, r)
}

fn by_next(rt: &impl Print, p: &mut [u8], r: &[u8], after: &[u8]) -> bool {
    load(r, p);
    let _ = next(p);
    left(rt, b", next ", p, after)
}

fn by_previous(rt: &impl Print, p: &mut [u8], r: &[u8], before: &[u8]) -> bool {
    load(r, p);
    let _ = previous(p);
    left(rt, b", previous ", p, before)
}

// One row, with a pattern to work on.
fn one_row(rt: &impl Print, place: u64, p: &mut [u8], r: &[u8], after: &[u8], before: &[u8]) {
    says::pattern(rt, r);
    let unranked = by_unrank(rt, place, p, r);
    let ranked = by_rank(rt, place, r);
    let forward = by_next(rt, p, r, after);
    let backward = by_previous(rt, p, r, before);
    says::end(rt, unranked && ranked && forward && backward);
}

// The number of the row after one, and before one, round the circuit.
fn after_row(i: usize, rows: usize) -> usize {
    if i < rows && i + 1 < rows { i + 1 } else { 0 }
}

fn before_row(i: usize, rows: usize) -> usize {
    if i > 0 { i - 1 } else { rows.saturating_sub(1) }
}

// All rows, of as many bytes as the pattern to work on.
pub fn all_rows(rt: &impl Print, table: &[u8], p: &mut [u8], rows: usize) {
    let n = p.len();
    for i in 0..rows {
        one_row(
            rt,
            i as u64,
            p,
            row(table, n, i),
            row(table, n, after_row(i, rows)),
            row(table, n, before_row(i, rows)),
        );
    }
}

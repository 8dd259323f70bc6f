//! How the program is called, and how what it says is compared. The two calls stand here alone,
//! so that the prover meets their contracts once.

use cv_app::{Served, cssv, serve_words};
use cv_io::{MemSink, MemSource, MemStore, SteadyStore};
use std::alloc::{AllocError, Global};
use std::process::Abort;

pub const USAGE: &str =
    "usage: cssv verify FILE CERT, check FILE CERT, run FILE STEPS ARG.., core FILE, \
    report FILE, gen N\n";

/// A straight-line program.
pub const STRAIGHT: &str = "1: proc int main()
{
buf b 4;
ptr p;
2: p = &b;
3: p = p + 3;
4: store p, 0;
5: return 0;
}
";

/// A file: its name and its bytes.
pub type File<'a> = (&'a str, &'a [u8]);

/// The status, and the texts on standard output and on standard error.
pub type Said<'a> = (u8, &'a str, &'a str);

/// The calls of each device that fail, counted from 0.
#[derive(Clone, Copy)]
pub struct Failing<'a> {
    pub store: &'a [u64],
    pub input: &'a [u64],
    pub out: &'a [u64],
    pub errs: &'a [u64],
}

pub fn words_of(alloc: Global, words: &[&str]) -> Result<Vec<Vec<u8>>, AllocError> {
    let mut all = Vec::new(alloc);
    for word in words {
        all.push(Vec::from_slice(alloc, word.as_bytes())?)?;
    }
    Ok(all)
}

fn files_of(alloc: Global, files: &[File<'_>]) -> Result<Vec<(Vec<u8>, Vec<u8>)>, AllocError> {
    let mut all = Vec::new(alloc);
    for (name, bytes) in files {
        let name = Vec::from_slice(alloc, name.as_bytes())?;
        all.push((name, Vec::from_slice(alloc, bytes)?))?;
    }
    Ok(all)
}

/// What the words answer over these files and this input.
pub fn serve(
    alloc: Global,
    words: &[Vec<u8>],
    files: &[File<'_>],
    input: &[u8],
) -> Result<Served, AllocError> {
    let mut store = SteadyStore::new(alloc, files_of(alloc, files)?);
    serve_words(alloc, words, &mut store, input)
}

/// The same over devices of which some calls fail.
pub fn serve_failing(
    alloc: Global,
    words: &[Vec<u8>],
    files: &[File<'_>],
    input: &[u8],
    failing: &Failing<'_>,
) -> Result<(u8, MemSink, MemSink), AllocError> {
    let fails = Vec::from_slice(alloc, failing.store)?;
    let mut store = MemStore::new(alloc, files_of(alloc, files)?, fails);
    let fails = Vec::from_slice(alloc, failing.input)?;
    let mut input = MemSource::new(Vec::from_slice(alloc, input)?, fails);
    let mut out = MemSink::new(alloc, Vec::from_slice(alloc, failing.out)?);
    let mut errs = MemSink::new(alloc, Vec::from_slice(alloc, failing.errs)?);
    let status = cssv(alloc, words, &mut store, &mut input, &mut out, &mut errs);
    Ok((status, out, errs))
}

fn compare(rt: &impl Abort, status: u8, out: &[u8], errs: &[u8], said: Said<'_>) {
    let (wanted, printed, refused) = said;
    assert_eq!(rt; errs, refused.as_bytes());
    assert_eq!(rt; out, printed.as_bytes());
    assert_eq!(rt; status, wanted);
}

/// The words, files and input are answered so.
pub fn says(
    rt: &impl Abort,
    alloc: Global,
    words: &[Vec<u8>],
    files: &[File<'_>],
    input: &[u8],
    said: Said<'_>,
) -> Result<(), AllocError> {
    let served = serve(alloc, words, files, input)?;
    compare(
        rt,
        served.status,
        served.out.as_slice(),
        served.errs.as_slice(),
        said,
    );
    Ok(())
}

/// The same over devices of which some calls fail.
pub fn says_failing(
    rt: &impl Abort,
    alloc: Global,
    words: &[Vec<u8>],
    files: &[File<'_>],
    input: &[u8],
    failing: &Failing<'_>,
    said: Said<'_>,
) -> Result<(), AllocError> {
    let (status, out, errs) = serve_failing(alloc, words, files, input, failing)?;
    compare(rt, status, out.bytes(), errs.bytes(), said);
    Ok(())
}

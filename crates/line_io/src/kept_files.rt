//! Files kept in memory, each found by its name.
//!
//! A list of names with bytes, where the first file of a name is the one. A call looks through the names in order; a
//! test has few files.
ghost use Rattle.std.specs.Prelude.{◌≡◌, ◌≢◌, ℕ, true, Some, None, IfSome, IfNone, List, take, option_map, OnOk, OnErr};
ghost use Rattle.line_io.specs.Kept.{file_in, blames};
ghost use Rattle.line_io.specs.declared.kept_files.Blame.TheVariants.{File};
ghost use Rattle.line_io.specs.Outside.{Grows, GrowsWhole};
ghost use Rattle.line_io.specs.inner.Places.{IsPlace};

use std::alloc::{AllocError, Global};
use std::marker::Model;

/// A file in memory.
#[derive(Drop)]
pub struct MemFile {
    name: Vec<u8>,
    bytes: Vec<u8>,
}

impl Model for MemFile {
    ghost use Rattle.line_io.specs.Kept.{NamedFile};

    ghost Value = { NamedFile };

    ghost view = { λ f. record { name = f.name.items; bytes = f.bytes.items } };
}

/// Which file the last call that failed was on.
#[derive(Clone, Copy, Debug, PartialEq, Eq)]
pub enum Blame {
    /// No call has failed.
    Nothing,
    /// A file that is missing.
    Missing,
    /// The file at this place.
    File(usize),
}

/// The place of the file of a name.
pub fn place_of(files: &[MemFile], name: &[u8]) -> Option<usize>
    ensures none { IfNone result (file_in files.now name.now ≡ None) }
    ensures some { IfSome result (IsPlace files.now name.now) }
{
    for k in 0..files.len() {
        let file = &files[k];
        if file.name.as_slice() == name {
            return Some(k);
        }
    }
    None
}

/// The bytes of the file of a name.
pub fn bytes_of<'a>(files: &'a [MemFile], name: &[u8]) -> Option<&'a [u8]>
    ensures { option_map (λ b. b.now) result ≡ file_in files.now name.now }
{
    match place_of(files, name) {
        Some(k) => {
            let file = &files[k];
            Some(file.bytes.as_slice())
        }
        None => None,
    }
}

/// Writes behind the bytes of the file at a place.
pub fn extend(files: &mut [MemFile], name: &[u8], k: usize, bytes: &[u8]) -> Result<(), AllocError>
    requires { IsPlace files.old name.now k }
    ensures done { OnOk result (GrowsWhole (file_in files.old name.now) bytes.now (file_in files.new name.now)) }
    ensures same { OnErr result (file_in files.new name.now ≡ file_in files.old name.now) }
    ensures blame { blames files.new (File k) name.now ≡ true }
    ensures alone { (q : List ℕ) → blames files.new (File k) q ≡ true → q ≡ name.now }
    ensures grows { Grows (file_in files.old name.now) bytes.now (file_in files.new name.now) }
    ensures others { (q : List ℕ) → q ≢ name.now → file_in files.new q ≡ file_in files.old q }
{
    let file = &mut files[k];
    file.bytes.extend_from_slice(bytes)?;
    Ok(())
}

/// Writes the first `keep` bytes behind those of the file at a place, or all where there are fewer.
pub fn extend_by_prefix(
    files: &mut [MemFile],
    name: &[u8],
    k: usize,
    bytes: &[u8],
    keep: u64,
) -> Result<(), AllocError>
    requires { IsPlace files.old name.now k }
    ensures done { OnOk result (GrowsWhole (file_in files.old name.now) (take keep bytes.now)
        (file_in files.new name.now)) }
    ensures same { OnErr result (file_in files.new name.now ≡ file_in files.old name.now) }
    ensures blame { blames files.new (File k) name.now ≡ true }
    ensures alone { (q : List ℕ) → blames files.new (File k) q ≡ true → q ≡ name.now }
    ensures grows { Grows (file_in files.old name.now) bytes.now (file_in files.new name.now) }
    ensures others { (q : List ℕ) → q ≢ name.now → file_in files.new q ≡ file_in files.old q }
{
    let keep = keep.min(bytes.len() as u64) as usize;
    extend(files, name, k, &bytes[..keep])
}

/// Gives the file at a place these bytes.
pub fn replace(files: &mut [MemFile], name: &[u8], k: usize, bytes: Vec<u8>)
    requires { IsPlace files.old name.now k }
    ensures done { file_in files.new name.now ≡ Some bytes.items }
    ensures others { (q : List ℕ) → q ≢ name.now → file_in files.new q ≡ file_in files.old q }
{
    let file = &mut files[k];
    file.bytes = bytes;
}

/// Adds a file of a name that has none yet.
pub fn add(
    alloc: Global,
    files: &mut Vec<MemFile>,
    name: &[u8],
    bytes: Vec<u8>,
) -> Result<(), AllocError>
    requires { file_in files.old.items name.now ≡ None }
    ensures done { OnOk result (file_in files.new.items name.now ≡ Some bytes.items) }
    ensures others { OnOk result ((q : List ℕ) → q ≢ name.now → file_in files.new.items q ≡ file_in files.old.items q) }
    ensures err { OnErr result (files.new.items ≡ files.old.items) }
{
    let name = Vec::from_slice(alloc, name)?;
    files.push(MemFile { name, bytes })?;
    Ok(())
}

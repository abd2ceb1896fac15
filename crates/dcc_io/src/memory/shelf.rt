//! Files in memory.

ghost use Rattle.std.specs.Prelude.{◌≡◌, ◌⊎◌, ◌≤◌, [], vec_len, None, Some, Ok, Err, IsErrOf, OnErr, IsTrue};
ghost use Rattle.std.specs.Prelude.{MatchOption, AllPairs, ◌≢◌, string_bytes};
ghost use Rattle.dcc_io.specs.Count.{Rose};
ghost use Rattle.dcc_io.specs.Told.{WhenTold};
ghost use Rattle.dcc_io.specs.Fetch.{Fetches, KeepsWithin, Records};
ghost use Rattle.dcc_io.specs.Memory.{next_count, fails_next, listed_calls, file_named, files_of};

use super::calls::Calls;
use crate::outside::{Fetch, Fetched, Shelf, ShelfFault};
use std::alloc::Global;
use std::marker::Model;

/// Files in memory, of which chosen fetches fail.
#[derive(Drop)]
pub struct MemShelf {
    files: Vec<(String, Vec<u8>)>,
    calls: Calls,
    asked: Vec<(String, usize)>,
    absences: u64,
}

impl Model for MemShelf {
    ghost use Rattle.dcc_io.specs.Memory.{ShelfState, files_of, requests_of};

    ghost Value = { ShelfState };

    ghost view = { λ s. record {
      files = files_of s.files.items;
      asked = requests_of s.asked.items;
      fetches = s.calls.made;
      absences = s.absences;
      fail = s.calls.fail.items;
    } };
}

impl MemShelf {
    /// Files of these names, which differ, and bytes. The fetches whose numbers are in `fail`, from 1 on, fail.
    pub fn new(alloc: Global, files: Vec<(String, Vec<u8>)>, fail: Vec<u64>) -> MemShelf
        requires { AllPairs (λ one another. string_bytes one.0 ≢ string_bytes another.0) files.items }
        ensures { result ≡ record {
          files = files_of files.items;
          asked = [];
          fetches = 0;
          absences = 0;
          fail = fail.items;
        } }
    {
        MemShelf {
            files,
            calls: Calls::new(fail),
            asked: Vec::new(alloc),
            absences: 0,
        }
    }
}

impl Shelf for MemShelf {
    ghost files = { λ s. Some (file_named s.files) };

    ghost asked = { λ s. s.asked };

    ghost absences = { λ s. s.absences };

    ghost faults = { λ s. listed_calls s.fail s.fetches };

    fn fetch(&mut self, alloc: Global, name: &str, most: usize, into: &mut Vec<u8>) -> Fetch
        requires { vec_len into.old ≡ 0 }

        ensures files { Some (file_named self.new.files) ≡ Some (file_named self.old.files) }
        ensures asked { Records self.old.asked self.new.asked (name.now, most) result }
        ensures answer { WhenTold (Some (file_named self.old.files))
            (λ file. Fetches (file name.now) most result into.new.items) }
        ensures within { KeepsWithin most result into.new.items }
        ensures absences { self.old.absences ≤ self.new.absences }
        ensures absent { IsErrOf result ShelfFault.Absent → Rose self.old.absences self.new.absences }
        ensures faults { listed_calls self.old.fail self.old.fetches ≤ listed_calls self.new.fail self.new.fetches }
        ensures failed { IsErrOf result ShelfFault.Failed
            → Rose (listed_calls self.old.fail self.old.fetches) (listed_calls self.new.fail self.new.fetches) }

        // The fetches that are on the list fail, and no other does.
        ensures listed { IsTrue (fails_next self.old.fail self.old.fetches)
            → (result ≡ Err ShelfFault.Failed) ⊎ (result ≡ Err ShelfFault.Memory) }
        ensures unlisted { result ≡ Err ShelfFault.Failed → IsTrue (fails_next self.old.fail self.old.fetches) }
        // The absences that are counted are those that were answered.
        ensures absences_counted { IsErrOf result ShelfFault.Absent → self.new.absences ≡ next_count self.old.absences }
        ensures absences_kept { self.new.absences ≡ self.old.absences ⊎ IsErrOf result ShelfFault.Absent }
        ensures fetches { self.new.fetches ≡ next_count self.old.fetches }
        ensures fail { self.new.fail ≡ self.old.fail }
        ensures same_files { self.new.files ≡ self.old.files }
    {
        let fails = self.calls.next_fails();
        let requested = String::from_str(alloc, name)?;
        self.asked.push((requested, most))?;
        if fails {
            return Err(ShelfFault::Failed);
        }
        match find(&self.files, name) {
            Some(bytes) => copy_front(bytes, most, into),
            None => {
                self.absences = self.absences.saturating_add(1);
                Err(ShelfFault::Absent)
            }
        }
    }
}

// The bytes of the first file of that name.
fn find<'a>(files: &'a [(String, Vec<u8>)], name: &str) -> Option<&'a Vec<u8>>
    ensures { MatchOption result (file_named (files_of files.now) name.now ≡ None)
        (λ bytes. file_named (files_of files.now) name.now ≡ Some bytes.now.items) }
{
    for (file, bytes) in files {
        if file.as_str() == name {
            return Some(bytes);
        }
    }
    None
}

// Puts the bytes, or the first of them, into an empty list.
fn copy_front(bytes: &[u8], most: usize, into: &mut Vec<u8>) -> Fetch
    requires { vec_len into.old ≡ 0 }
    ensures answer { Fetches (Some bytes.now) most result into.new.items }
    ensures err { OnErr result (result ≡ Err ShelfFault.Memory) }
{
    if bytes.len() > most {
        into.extend_from_slice(&bytes[..most])?;
        return Ok(Fetched::Longer);
    }
    into.extend_from_slice(bytes)?;
    Ok(Fetched::Whole)
}

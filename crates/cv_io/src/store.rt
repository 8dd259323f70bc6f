//! Stores in memory.
ghost use Rattle.std.specs.Prelude.{◌≡◌, ◌≢◌, ◌⊎◌, ◌∷◌, [], ◌++◌, ◌≤◌, List, ℕ, length, Some, None, IfOk, OnOk, OnErr, IsErr, IsOkUnless};
ghost use Rattle.std.specs.Option.{option_copied};
ghost use Rattle.cv_io.specs.Counts.{Rose, NoneFell, NoneRose, last_count, capped-counted, none-counted};
ghost use Rattle.cv_io.specs.Files.{Files, Holds, HoldsMore, IsAbsent, ChangesOnly};
ghost use Rattle.cv_io.specs.Memory.{Shelf, Cabinet, Numbers, IsDue, advanced, names_of, files_of, file_of, times_in, count_in};

use crate::calls::Calls;
use crate::devices::{Store, StoreError};
use std::alloc::{AllocError, Global};
use std::marker::Model;

/// The bytes of the first file of this name.
fn find<'a>(files: &'a [(Vec<u8>, Vec<u8>)], name: &[u8]) -> Option<&'a [u8]>
    ensures { option_copied result ≡ file_of (files_of files.now) name.now }
{
    for (other, bytes) in files {
        if other.as_slice() == name {
            return Some(bytes.as_slice());
        }
    }
    None
}

/// Adds a name at the end.
fn note(alloc: Global, names: &mut Vec<Vec<u8>>, name: &[u8]) -> Result<(), AllocError>
    ensures ok { OnOk result (names_of names.new.items ≡ names_of names.old.items ++ name.now ∷ []) }
    ensures err { OnErr result (names_of names.new.items ≡ names_of names.old.items) }
{
    let name = Vec::from_slice(alloc, name)?;
    names.push(name)?;
    Ok(())
}

/// Adds a file before the others.
fn put(
    alloc: Global,
    files: &mut Vec<(Vec<u8>, Vec<u8>)>,
    name: &[u8],
    bytes: &[u8],
) -> Result<(), AllocError>
    ensures ok { OnOk result (files_of files.new.items ≡ (name.now, bytes.now) ∷ files_of files.old.items) }
    ensures err { OnErr result (files_of files.new.items ≡ files_of files.old.items) }
{
    let name = Vec::from_slice(alloc, name)?;
    let bytes = Vec::from_slice(alloc, bytes)?;
    files.insert(0, (name, bytes))?;
    Ok(())
}

/// A store in memory that fails only for a name that isn't there. Contracts see it as its files, of which the first
/// of a name counts, and the names of the loads that failed.
#[derive(Drop)]
pub struct SteadyStore {
    alloc: Global,
    files: Vec<(Vec<u8>, Vec<u8>)>,
    unread: Vec<Vec<u8>>,
}

impl Model for SteadyStore {
    ghost Value = { Shelf };

    ghost view = { λ store. record { files = files_of store.files.items; unread = names_of store.unread.items } };
}

impl SteadyStore {
    /// A store of these files, each a name and its bytes; it takes no memory and keeps the allocator.
    pub fn new(alloc: Global, files: Vec<(Vec<u8>, Vec<u8>)>) -> SteadyStore
        ensures { result ≡ record { files = files_of files.items; unread = [] } }
    {
        SteadyStore {
            alloc,
            files,
            unread: Vec::new(alloc),
        }
    }

    /// The bytes under the name, None where it isn't there; it takes no memory.
    pub fn bytes(&self, name: &[u8]) -> Option<&[u8]>
        ensures { option_copied result ≡ file_of self.now.files name.now }
    {
        find(&self.files, name)
    }

    /// Counts a load of the name that fails.
    fn count_load(&mut self, name: &[u8]) -> Result<(), AllocError>
        ensures files { self.new.files ≡ self.old.files }
        ensures ok { OnOk result (self.new.unread ≡ self.old.unread ++ name.now ∷ []) }
        ensures err { OnErr result (self.new.unread ≡ self.old.unread) }
    {
        note(self.alloc, &mut self.unread, name)
    }
}

impl Store for SteadyStore {
    ghost content = { λ store. Some (file_of store.files) };

    ghost reading_faults = { λ store. count_in store.unread };

    ghost writing_faults = { λ _ _. 0 };

    ghost loads_counted = { λ store name. capped-counted (times_in store.unread name) };

    ghost saves_counted = { λ _ _. none-counted };

    #[tactic(auto, using(crate::proofs::Names::count_rose, crate::proofs::Names::counts_kept))]
    fn load(&mut self, alloc: Global, name: &[u8], limit: u64) -> Result<Vec<u8>, StoreError>
        ensures found { IfOk result (λ bytes. file_of self.old.files name.now ≡ Some bytes.items) }
        ensures within { IfOk result (λ bytes. length bytes.items ≤ limit) }
        ensures too_long { result ≡ Err StoreError.TooLong → HoldsMore (Some (file_of self.old.files)) name.now limit }
        ensures absent { result ≡ Err StoreError.Failed → file_of self.old.files name.now ≡ None }
        ensures unchanged { self.new.files ≡ self.old.files }
        ensures failed { result ≡ Err StoreError.Failed → self.new.unread ≡ self.old.unread ++ name.now ∷ [] }
        ensures quiet { result ≢ Err StoreError.Failed → self.new.unread ≡ self.old.unread }
        ensures rose { result ≡ Err StoreError.Failed →
            Rose (count_in self.old.unread name.now) (count_in self.new.unread name.now) }
        ensures never_falls { NoneFell (count_in self.old.unread) (count_in self.new.unread) }
    {
        let Some(bytes) = find(&self.files, name) else {
            self.count_load(name)?;
            return Err(StoreError::Failed);
        };
        if bytes.len() as u64 > limit {
            return Err(StoreError::TooLong);
        }
        Ok(Vec::from_slice(alloc, bytes)?)
    }

    #[tactic(auto, using(crate::proofs::Names::file_of_same, crate::proofs::Names::file_of_other))]
    fn save(&mut self, name: &[u8], bytes: &[u8]) -> Result<(), StoreError>
        ensures ok { OnOk result (self.new.files ≡ (name.now, bytes.now) ∷ self.old.files) }
        ensures never_fails { IsOkUnless result StoreError.Memory }
        ensures kept { OnErr result (self.new.files ≡ self.old.files) }
        ensures reading { self.new.unread ≡ self.old.unread }
    {
        put(self.alloc, &mut self.files, name, bytes)?;
        Ok(())
    }
}

/// A store in memory, of whose calls those with certain numbers fail, as do loads of names that aren't there.
/// Contracts see it as its files with the names of the loads that failed, the numbers of its calls, and the names of
/// the saves that failed.
#[derive(Drop)]
pub struct MemStore {
    shelf: SteadyStore,
    calls: Calls,
    unsaved: Vec<Vec<u8>>,
}

impl Model for MemStore {
    ghost Value = { Cabinet };

    ghost view = { λ store. record { shelf = store.shelf; calls = store.calls; unsaved = names_of store.unsaved.items } };
}

impl MemStore {
    /// A store of these files, each a name and its bytes, whose calls with the numbers `fails`, counted from 0, fail;
    /// it takes no memory and keeps the allocator.
    pub fn new(alloc: Global, files: Vec<(Vec<u8>, Vec<u8>)>, fails: Vec<u64>) -> MemStore
        ensures shelf { result.shelf ≡ record { files = files_of files.items; unread = [] } }
        ensures calls { result.calls ≡ record { next = 0; fails = fails.items } }
        ensures unsaved { result.unsaved ≡ [] }
    {
        MemStore {
            shelf: SteadyStore::new(alloc, files),
            calls: Calls::new(fails),
            unsaved: Vec::new(alloc),
        }
    }

    /// The bytes under the name, None where it isn't there; it takes no memory.
    pub fn bytes(&self, name: &[u8]) -> Option<&[u8]>
        ensures { option_copied result ≡ file_of self.now.shelf.files name.now }
    {
        self.shelf.bytes(name)
    }
}

impl Store for MemStore {
    ghost content = { λ store. Some (file_of store.shelf.files) };

    ghost reading_faults = { λ store. count_in store.shelf.unread };

    ghost writing_faults = { λ store. count_in store.unsaved };

    ghost loads_counted = { λ store name. capped-counted (times_in store.shelf.unread name) };

    ghost saves_counted = { λ store name. capped-counted (times_in store.unsaved name) };

    #[tactic(auto, using(crate::proofs::Names::count_rose, crate::proofs::Names::counts_kept))]
    fn load(&mut self, alloc: Global, name: &[u8], limit: u64) -> Result<Vec<u8>, StoreError>
        ensures due { IsDue self.old.calls → IsErr result × (result ≢ Err StoreError.TooLong) }
        ensures next { self.new.calls ≡ advanced self.old.calls }
        ensures found { IfOk result (λ bytes. file_of self.old.shelf.files name.now ≡ Some bytes.items) }
        ensures within { IfOk result (λ bytes. length bytes.items ≤ limit) }
        ensures too_long { result ≡ Err StoreError.TooLong → HoldsMore (Some (file_of self.old.shelf.files)) name.now limit }
        ensures cause { result ≡ Err StoreError.Failed → IsDue self.old.calls ⊎ (file_of self.old.shelf.files name.now ≡ None) }
        ensures unchanged { self.new.shelf.files ≡ self.old.shelf.files }
        ensures failed { result ≡ Err StoreError.Failed → self.new.shelf.unread ≡ self.old.shelf.unread ++ name.now ∷ [] }
        ensures quiet { result ≢ Err StoreError.Failed → self.new.shelf.unread ≡ self.old.shelf.unread }
        ensures rose { result ≡ Err StoreError.Failed →
            Rose (count_in self.old.shelf.unread name.now) (count_in self.new.shelf.unread name.now) }
        ensures never_falls { NoneFell (count_in self.old.shelf.unread) (count_in self.new.shelf.unread) }
        ensures writing { self.new.unsaved ≡ self.old.unsaved }
    {
        if self.calls.begin() {
            self.shelf.count_load(name)?;
            return Err(StoreError::Failed);
        }
        self.shelf.load(alloc, name, limit)
    }

    #[tactic(auto, using(crate::proofs::Names::count_rose, crate::proofs::Names::counts_kept, crate::proofs::Names::file_of_same, crate::proofs::Names::file_of_other))]
    fn save(&mut self, name: &[u8], bytes: &[u8]) -> Result<(), StoreError>
        ensures due { IsDue self.old.calls → IsErr result }
        ensures cause { result ≡ Err StoreError.Failed → IsDue self.old.calls }
        ensures never_too_long { result ≢ Err StoreError.TooLong }
        ensures next { self.new.calls ≡ advanced self.old.calls }
        ensures ok { OnOk result (self.new.shelf.files ≡ (name.now, bytes.now) ∷ self.old.shelf.files) }
        ensures kept { OnErr result (self.new.shelf.files ≡ self.old.shelf.files) }
        ensures failed { result ≡ Err StoreError.Failed → self.new.unsaved ≡ self.old.unsaved ++ name.now ∷ [] }
        ensures quiet { result ≢ Err StoreError.Failed → self.new.unsaved ≡ self.old.unsaved }
        ensures rose { result ≡ Err StoreError.Failed →
            Rose (count_in self.old.unsaved name.now) (count_in self.new.unsaved name.now) }
        ensures never_falls { NoneFell (count_in self.old.unsaved) (count_in self.new.unsaved) }
        ensures reading { self.new.shelf.unread ≡ self.old.shelf.unread }
    {
        if self.calls.begin() {
            note(self.shelf.alloc, &mut self.unsaved, name)?;
            return Err(StoreError::Failed);
        }
        self.shelf.save(name, bytes)
    }
}

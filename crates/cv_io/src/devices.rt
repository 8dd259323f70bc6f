//! The three kinds of devices.
ghost use Rattle.std.specs.Prelude.{◌≡◌, ◌≢◌, ◌<◌, ◌≤◌, ℕ, List, Option, length, take, IfOk, OnOk, OnErr};
ghost use Rattle.cv_io.specs.Counts.{last_count, Rose, NoneFell, NoneRose};
ghost use Rattle.cv_io.specs.Files.{Files, Holds, HoldsMore, ChangesOnly};
ghost use Rattle.cv_io.specs.Streams.{Takes, IsAtEnd, Appends, AppendsPrefix};
ghost use Rattle.cv_io.specs.declared.devices.SinkError.TheVariants.{Memory as sink_memory};
ghost use Rattle.cv_io.specs.declared.devices.StoreError.TheVariants.{Memory as store_memory};

use std::alloc::{AllocError, AllocFailed, Global};
use thiserror::Error;

/// A device failed, and has counted it.
#[derive(Clone, Copy, Debug, PartialEq, Eq, Error)]
#[error("the device failed")]
pub struct Failed;

/// Why a write failed.
#[derive(Clone, Copy, Debug, PartialEq, Eq, Error)]
pub enum SinkError {
    /// The device failed, and has counted it.
    #[error("the device failed")]
    Failed,
    /// Want of memory.
    #[error("no memory")]
    Memory,
}

/// Why a load or a save failed.
#[derive(Clone, Copy, Debug, PartialEq, Eq, Error)]
pub enum StoreError {
    /// The device failed, and has counted it for the name and the kind of call.
    #[error("the device failed")]
    Failed,
    /// There are more bytes than the limit of the call.
    #[error("more bytes than the limit")]
    TooLong,
    /// Want of memory.
    #[error("no memory")]
    Memory,
}

impl From<AllocError> for SinkError {
    ghost from_gives = { λ _ e. e ≡ sink_memory };

    fn from(_: AllocError) -> SinkError {
        SinkError::Memory
    }
}

impl From<AllocError> for StoreError {
    ghost from_gives = { λ _ e. e ≡ store_memory };

    fn from(_: AllocError) -> StoreError {
        StoreError::Memory
    }
}

impl<T: Drop> From<AllocFailed<T>> for StoreError {
    ghost from_gives = { λ _ e. e ≡ store_memory };

    fn from(_: AllocFailed<T>) -> StoreError {
        StoreError::Memory
    }
}

/// Where bytes are read from, in order.
pub trait Source {
    /// The bytes that are left, where the source tells them.
    ghost content: { Self → Option (List ℕ) };

    /// How often a read has failed.
    ghost faults: { Self → ℕ };

    /// Moves bytes that are left to the front of the slice and answers how many, 0 into a slice that isn't empty
    /// only at the end of the input. After an error nothing is said of what is left.
    fn read(&mut self, into: &mut [u8]) -> Result<usize, Failed>
        ensures within { IfOk result (λ n. n ≤ length into.old) }
        ensures taken { IfOk result (λ n. Takes (content self.old) (take n into.new) (content self.new)) }
        ensures end { result ≡ Ok 0 → 0 < length into.old → IsAtEnd (content self.old) }
        ensures failed { OnErr result (Rose (faults self.old) (faults self.new)) }
        ensures quiet { OnOk result (faults self.new ≡ faults self.old) }
        ensures never_falls { faults self.old ≤ faults self.new };

    /// A count has a last value.
    ghost counted: { (source : Self) → faults source ≤ last_count };
}

/// Where bytes are written to, in order.
pub trait Sink {
    /// The bytes that were written, where the sink tells them.
    ghost content: { Self → Option (List ℕ) };

    /// How often a write has failed.
    ghost faults: { Self → ℕ };

    /// Appends the bytes. After an error some bytes from their front may have been appended.
    fn write(&mut self, bytes: &[u8]) -> Result<(), SinkError>
        ensures ok { OnOk result (Appends (content self.old) bytes.now (content self.new)) }
        ensures err { OnErr result (AppendsPrefix (content self.old) bytes.now (content self.new)) }
        ensures failed { result ≡ Err SinkError.Failed → Rose (faults self.old) (faults self.new) }
        ensures quiet { result ≢ Err SinkError.Failed → faults self.new ≡ faults self.old }
        ensures never_falls { faults self.old ≤ faults self.new };

    /// A count has a last value.
    ghost counted: { (sink : Self) → faults sink ≤ last_count };
}

/// Bytes under names. A name is any bytes.
pub trait Store {
    /// The bytes under each name that is there, where the store tells them.
    ghost content: { Self → Option Files };

    /// How often a load of a name has failed.
    ghost reading_faults: { Self → List ℕ → ℕ };

    /// How often a save under a name has failed.
    ghost writing_faults: { Self → List ℕ → ℕ };

    /// The bytes under the name, `TooLong` where they are more than `limit`. A name that isn't there is `Failed`.
    fn load(&mut self, alloc: Global, name: &[u8], limit: u64) -> Result<Vec<u8>, StoreError>
        ensures found { IfOk result (λ bytes. Holds (content self.old) name.now bytes.items) }
        ensures within { IfOk result (λ bytes. length bytes.items ≤ limit) }
        ensures too_long { result ≡ Err StoreError.TooLong → HoldsMore (content self.old) name.now limit }
        ensures unchanged { content self.new ≡ content self.old }
        ensures failed { result ≡ Err StoreError.Failed →
            Rose (reading_faults self.old name.now) (reading_faults self.new name.now) }
        ensures quiet { result ≢ Err StoreError.Failed → NoneRose (reading_faults self.old) (reading_faults self.new) }
        ensures never_falls { NoneFell (reading_faults self.old) (reading_faults self.new) }
        ensures writing { NoneRose (writing_faults self.old) (writing_faults self.new) };

    /// Puts the bytes under the name. After an error nothing is said of that name. It never answers `TooLong`.
    fn save(&mut self, name: &[u8], bytes: &[u8]) -> Result<(), StoreError>
        ensures saved { OnOk result (Holds (content self.new) name.now bytes.now) }
        ensures others { ChangesOnly (content self.old) name.now (content self.new) }
        ensures never_too_long { result ≢ Err StoreError.TooLong }
        ensures failed { result ≡ Err StoreError.Failed →
            Rose (writing_faults self.old name.now) (writing_faults self.new name.now) }
        ensures quiet { result ≢ Err StoreError.Failed → NoneRose (writing_faults self.old) (writing_faults self.new) }
        ensures never_falls { NoneFell (writing_faults self.old) (writing_faults self.new) }
        ensures reading { NoneRose (reading_faults self.old) (reading_faults self.new) };

    /// A count of loads has a last value.
    ghost loads_counted: { (store : Self) (name : List ℕ) → reading_faults store name ≤ last_count };

    /// A count of saves has a last value.
    ghost saves_counted: { (store : Self) (name : List ℕ) → writing_faults store name ≤ last_count };
}

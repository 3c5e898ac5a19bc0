ghost use Rattle.std.specs.Prelude.{◌≡◌, ◌≢◌, ◌+◌, ◌-◌, ◌^◌, ◌<◌, ◌≤◌, ◌↔◌, ◌||◌, min, length, IfOk, IsErr, IsErrOf};
ghost use Rattle.std.specs.Prelude.{◌++◌, ◌∷◌, [], ◌⊎◌, map, Contains, IsNone, OnErr, OnOk, IsTrue, is_ok, if◌then◌else◌};
ghost use Rattle.std.specs.Option.{IsSomeAnd};
ghost use Rattle.alg_host.specs.Host.{Counts, Loads, Creates};
ghost use Rattle.alg_host.specs.MemoryHost.{call_of, files_of};

use crate::buffer::Buffer;
use crate::{CreateFault, Failed, Host, LoadFault};
use alg_expr::Memory;
use alg_kernel::Proved;
use std::alloc::{AllocError, Global};
use std::collections::BTreeMap;

/// A call that loads or creates: its path, and whether it answered Ok.
#[derive(Drop)]
enum FileCall {
    Load { path: String, ok: bool },
    Create { path: String, ok: bool },
}

/// A host of files in memory, which keeps what is appended, said, complained and handed over, and fails where it is told
/// to.
///
/// Its calls are numbered from 1; a call of `proved`, or one that answers `Memory`, takes no number, and after number
/// 2^64 - 1 each later call has that number too.
#[derive(Drop)]
pub struct MemoryHost {
    files: BTreeMap<String, Vec<u8>>,
    failing: Vec<u64>,
    number: u64,
    faults: u64,
    complaint_faults: u64,
    made: bool,
    calls: Vec<FileCall>,
    created: Buffer,
    said: Buffer,
    complained: Buffer,
    proved: Vec<Proved>,
}

impl MemoryHost {
    ghost use Rattle.alg_host.specs.MemoryHost.{IsNew, told_of};

    /// A host with these files, whose calls with a number in `failing` fail, and with room for `room` bytes in the
    /// created file, on standard output and on standard error.
    pub fn new(
        alloc: Global,
        files: BTreeMap<String, Vec<u8>>,
        failing: Vec<u64>,
        room: usize,
    ) -> Result<MemoryHost, Memory>
        ensures { IfOk result (IsNew files failing.items room) }
    {
        let created = Buffer::new(alloc, room)?;
        let said = Buffer::new(alloc, room)?;
        let complained = Buffer::new(alloc, room)?;
        Ok(MemoryHost {
            files,
            failing,
            number: 0,
            faults: 0,
            complaint_faults: 0,
            made: false,
            calls: Vec::new(alloc),
            created,
            said,
            complained,
            proved: Vec::new(alloc),
        })
    }

    /// The bytes on standard output.
    pub fn said(&self) -> &[u8]
        ensures { result.now ≡ (told_of self.now).said }
    {
        &self.said.bytes
    }

    /// The bytes on standard error.
    pub fn complained(&self) -> &[u8]
        ensures { result.now ≡ (told_of self.now).complained }
    {
        &self.complained.bytes
    }

    /// The bytes of the created file.
    pub fn created(&self) -> &[u8]
        ensures { result.now ≡ (told_of self.now).appended }
    {
        &self.created.bytes
    }

    /// The goals that were handed over.
    pub fn goals(&self) -> &[Proved]
        ensures { result.now ≡ (told_of self.now).proved }
    {
        &self.proved
    }
}

fn number_after(number: u64) -> u64
    ensures { result ≡ min (number + 1) (2 ^ 64 - 1) }
{
    number.saturating_add(1)
}

fn copy_within(alloc: Global, bytes: &[u8], limit: u64) -> Result<Vec<u8>, LoadFault>
    ensures copied { IfOk result (λ copy. (copy.items ≡ bytes.now) × (length bytes.now ≤ limit)) }
    ensures too_long { IsErrOf result LoadFault.TooLong → limit < length bytes.now }
    ensures no_fault { result ≢ Err LoadFault.Failed }
{
    if bytes.len() as u64 > limit {
        return Err(LoadFault::TooLong);
    }
    match bytes.to_vec(alloc) {
        Ok(copy) => Ok(copy),
        Err(_) => Err(LoadFault::Memory),
    }
}

// What the call with this number answers.
fn answer_to_load(
    alloc: Global,
    files: &BTreeMap<String, Vec<u8>>,
    failing: &[u64],
    number: u64,
    path: &str,
    limit: u64,
) -> Result<Vec<u8>, LoadFault>
    ensures within { IfOk result (λ bytes. length bytes.items ≤ limit) }
    ensures bytes { IfOk result (λ bytes. files_of files.now path.now ≡ Some bytes.items) }
    ensures too_long { IsErrOf result LoadFault.TooLong → IsSomeAnd (files_of files.now path.now) (λ bytes. limit < length bytes) }
    ensures fails { IsErrOf result LoadFault.Failed ↔ Contains failing.now number ⊎ IsNone (files_of files.now path.now) }
{
    if failing.contains(&number) {
        return Err(LoadFault::Failed);
    }
    match files.get(path) {
        Some(bytes) => copy_within(alloc, bytes, limit),
        None => Err(LoadFault::Failed),
    }
}

fn record_load(alloc: Global, calls: &mut Vec<FileCall>, path: &str, ok: bool) -> Result<(), Memory>
    ensures ok { OnOk result (map call_of calls.new.items ≡ map call_of calls.old.items ++ Loads path.now ok ∷ []) }
    ensures err { OnErr result (calls.new.items ≡ calls.old.items) }
{
    let path = String::from_str(alloc, path)?;
    calls.push(FileCall::Load { path, ok })?;
    Ok(())
}

fn record_create(
    alloc: Global,
    calls: &mut Vec<FileCall>,
    path: &str,
    ok: bool,
) -> Result<(), Memory>
    ensures ok { OnOk result (map call_of calls.new.items ≡ map call_of calls.old.items ++ Creates path.now ok ∷ []) }
    ensures err { OnErr result (calls.new.items ≡ calls.old.items) }
{
    let path = String::from_str(alloc, path)?;
    calls.push(FileCall::Create { path, ok })?;
    Ok(())
}

// A call with this number fails, on the list or for another cause.
fn is_failing(failing: &[u64], number: u64, otherwise: bool) -> bool
    ensures { IsTrue result ↔ (Contains failing.now number ⊎ IsTrue otherwise) }
{
    if failing.contains(&number) {
        return true;
    }
    otherwise
}

// Takes a number for a call that adds a piece, and adds the piece unless the call fails.
fn add_numbered(
    number: &mut u64,
    failing: &[u64],
    faults: &mut u64,
    buffer: &mut Buffer,
    piece: &[u8],
) -> Result<(), Failed>
    ensures number { number.new ≡ min (number.old + 1) (2 ^ 64 - 1) }
    ensures fails { IsErr result ↔ (Contains failing.now number.new ⊎ (buffer.old.room < length buffer.old.bytes.items + length piece.now)) }
    ensures bytes { buffer.new.bytes.items ≡ (if is_ok result then buffer.old.bytes.items ++ piece.now else buffer.old.bytes.items) }
    ensures room { buffer.new.room ≡ buffer.old.room }
    ensures cause { Counts faults.old faults.new result }
{
    *number = number_after(*number);
    if failing.contains(number) || !buffer.fits(piece) {
        *faults = faults.saturating_add(1);
        return Err(Failed);
    }
    buffer.add(piece);
    Ok(())
}

impl Host for MemoryHost {
    ghost use Rattle.std.specs.Prelude.{Some};
    ghost use Rattle.alg_host.specs.MemoryHost.{told_of, next_number, number_after_load, number_after_create, FailsToLoad, FailsToCreate, FailsToAdd, HasSameLimits};
    ghost use Rattle.alg_host.specs.Host.{Counts, CountsLoad, CountsCreate, after_load, after_create, after_proved, Adds, adds_appended, adds_said, adds_complained};

    ghost faults = { λ m. m.faults };

    ghost complaint_faults = { λ m. m.complaint_faults };

    ghost made = { λ m. m.made };

    ghost told = { λ m. Some (told_of m) };

    fn load(&mut self, alloc: Global, path: &str, limit: u64) -> Result<Vec<u8>, LoadFault>
        ensures told { Some (told_of self.new) ≡ after_load path.now result (Some (told_of self.old)) }
        ensures cause { CountsLoad self.old.faults self.new.faults result }
        ensures complaint_faults { self.new.complaint_faults ≡ self.old.complaint_faults }
        ensures made { self.new.made ≡ self.old.made }
        ensures within { IfOk result (λ bytes. length bytes.items ≤ limit) }
        ensures bytes { IfOk result (λ bytes. (told_of self.old).files path.now ≡ Some bytes.items) }
        ensures too_long { IsErrOf result LoadFault.TooLong → IsSomeAnd ((told_of self.old).files path.now) (λ bytes. limit < length bytes) }
        ensures fails { result ≢ Err LoadFault.Memory → (IsErrOf result LoadFault.Failed ↔ FailsToLoad self.old path.now) }
        ensures number { self.new.number ≡ number_after_load result self.old.number }
        ensures limits { HasSameLimits self.old self.new }
    {
        let number = number_after(self.number);
        match answer_to_load(alloc, &self.files, &self.failing, number, path, limit) {
            Ok(bytes) => {
                if record_load(alloc, &mut self.calls, path, true).is_err() {
                    return Err(LoadFault::Memory);
                }
                self.number = number;
                Ok(bytes)
            }
            Err(LoadFault::TooLong) => {
                if record_load(alloc, &mut self.calls, path, false).is_err() {
                    return Err(LoadFault::Memory);
                }
                self.number = number;
                Err(LoadFault::TooLong)
            }
            Err(LoadFault::Failed) => {
                if record_load(alloc, &mut self.calls, path, false).is_err() {
                    return Err(LoadFault::Memory);
                }
                self.number = number;
                self.faults = self.faults.saturating_add(1);
                Err(LoadFault::Failed)
            }
            Err(LoadFault::Memory) => Err(LoadFault::Memory),
        }
    }

    fn create(&mut self, alloc: Global, path: &str) -> Result<(), CreateFault>
        ensures told { Some (told_of self.new) ≡ after_create path.now result (Some (told_of self.old)) }
        ensures cause { CountsCreate self.old.faults self.new.faults result }
        ensures complaint_faults { self.new.complaint_faults ≡ self.old.complaint_faults }
        ensures made { self.new.made ≡ (self.old.made || is_ok result) }
        ensures fails { result ≢ Err CreateFault.Memory → (IsErrOf result CreateFault.Failed ↔ FailsToCreate self.old) }
        ensures number { self.new.number ≡ number_after_create result self.old.number }
        ensures limits { HasSameLimits self.old self.new }
    {
        let number = number_after(self.number);
        if is_failing(&self.failing, number, self.made) {
            if record_create(alloc, &mut self.calls, path, false).is_err() {
                return Err(CreateFault::Memory);
            }
            self.number = number;
            self.faults = self.faults.saturating_add(1);
            return Err(CreateFault::Failed);
        }
        if record_create(alloc, &mut self.calls, path, true).is_err() {
            return Err(CreateFault::Memory);
        }
        self.number = number;
        self.made = true;
        self.created.clear();
        Ok(())
    }

    fn append(&mut self, bytes: &[u8]) -> Result<(), Failed>
        ensures told { Adds adds_appended bytes.now result (Some (told_of self.old)) (Some (told_of self.new)) }
        ensures cause { Counts self.old.faults self.new.faults result }
        ensures complaint_faults { self.new.complaint_faults ≡ self.old.complaint_faults }
        ensures made { self.new.made ≡ self.old.made }
        ensures fails { IsErr result ↔ FailsToAdd self.old self.old.created bytes.now }
        ensures number { self.new.number ≡ next_number self.old.number }
        ensures limits { HasSameLimits self.old self.new }
    {
        add_numbered(
            &mut self.number,
            &self.failing,
            &mut self.faults,
            &mut self.created,
            bytes,
        )
    }

    fn say(&mut self, bytes: &[u8]) -> Result<(), Failed>
        ensures told { Adds adds_said bytes.now result (Some (told_of self.old)) (Some (told_of self.new)) }
        ensures cause { Counts self.old.faults self.new.faults result }
        ensures complaint_faults { self.new.complaint_faults ≡ self.old.complaint_faults }
        ensures made { self.new.made ≡ self.old.made }
        ensures fails { IsErr result ↔ FailsToAdd self.old self.old.said bytes.now }
        ensures number { self.new.number ≡ next_number self.old.number }
        ensures limits { HasSameLimits self.old self.new }
    {
        add_numbered(
            &mut self.number,
            &self.failing,
            &mut self.faults,
            &mut self.said,
            bytes,
        )
    }

    fn complain(&mut self, bytes: &[u8]) -> Result<(), Failed>
        ensures told { Adds adds_complained bytes.now result (Some (told_of self.old)) (Some (told_of self.new)) }
        ensures cause { Counts self.old.complaint_faults self.new.complaint_faults result }
        ensures faults { self.new.faults ≡ self.old.faults }
        ensures made { self.new.made ≡ self.old.made }
        ensures fails { IsErr result ↔ FailsToAdd self.old self.old.complained bytes.now }
        ensures number { self.new.number ≡ next_number self.old.number }
        ensures limits { HasSameLimits self.old self.new }
    {
        add_numbered(
            &mut self.number,
            &self.failing,
            &mut self.complaint_faults,
            &mut self.complained,
            bytes,
        )
    }

    fn proved(&mut self, _alloc: Global, goal: Proved) -> Result<(), Memory>
        ensures told { Some (told_of self.new) ≡ after_proved goal result (Some (told_of self.old)) }
        ensures faults { self.new.faults ≡ self.old.faults }
        ensures complaint_faults { self.new.complaint_faults ≡ self.old.complaint_faults }
        ensures made { self.new.made ≡ self.old.made }
        ensures number { self.new.number ≡ self.old.number }
        ensures limits { HasSameLimits self.old self.new }
    {
        match self.proved.push(goal) {
            Ok(()) => Ok(()),
            Err(_) => Err(Memory),
        }
    }
}

ghost use Rattle.std.specs.Prelude.{◌≤◌, length, IfOk};

use crate::{CreateFault, Failed, Host, LoadFault};
use alg_expr::Memory;
use alg_kernel::Proved;
use std::alloc::Global;
use std::fs::File;
use std::io;
use std::io::{ErrorKind, Print, Read, Write};

/// The files, the standard output and the standard error of the process. It tells neither content nor calls, and drops
/// the goals that it is handed.
#[derive(Drop)]
pub struct RealHost {
    rt: HostRuntime,
    // the file that `append` adds to
    created: Option<File>,
    faults: u64,
    complaint_faults: u64,
}

impl RealHost {
    ghost use Rattle.std.specs.Prelude.{◌≡◌, IsNone};

    pub fn new(rt: HostRuntime) -> RealHost
        ensures faults { result.faults ≡ 0 }
        ensures complaint_faults { result.complaint_faults ≡ 0 }
        ensures made { IsNone result.created }
    {
        RealHost {
            rt,
            created: None,
            faults: 0,
            complaint_faults: 0,
        }
    }
}

fn load_fault(error: io::Error) -> LoadFault {
    if error.kind() == ErrorKind::OutOfMemory {
        LoadFault::Memory
    } else {
        LoadFault::Failed
    }
}

// All the bytes of the file, which are at most `limit`.
fn read_within(alloc: Global, file: &mut File, limit: u64) -> Result<Vec<u8>, LoadFault>
    ensures { IfOk result (λ bytes. length bytes.items ≤ limit) }
{
    let mut bytes = Vec::new(alloc);
    let mut piece = [0u8; 4096];
    for _ in 0..u64::MAX {
        match file.read(&mut piece) {
            Ok(0) => return Ok(bytes),
            Ok(count) => {
                if (bytes.len() as u64) + (count as u64) > limit {
                    return Err(LoadFault::TooLong);
                }
                if bytes.extend_from_slice(&piece[..count]).is_err() {
                    return Err(LoadFault::Memory);
                }
            }
            Err(error) => {
                if error.kind() != ErrorKind::Interrupted {
                    return Err(load_fault(error));
                }
            }
        }
    }
    Err(LoadFault::Failed)
}

fn read_file(rt: &HostRuntime, alloc: Global, path: &str, limit: u64) -> Result<Vec<u8>, LoadFault>
    ensures { IfOk result (λ bytes. length bytes.items ≤ limit) }
{
    match File::open(rt, path) {
        Ok(mut file) => read_within(alloc, &mut file, limit),
        Err(error) => Err(load_fault(error)),
    }
}

fn create_fault(error: io::Error) -> CreateFault {
    if error.kind() == ErrorKind::OutOfMemory {
        CreateFault::Memory
    } else {
        CreateFault::Failed
    }
}

// Writes the whole piece. A write that takes nothing of it is a failure.
fn write_piece(file: &mut File, piece: &[u8]) -> Result<(), Failed> {
    let mut rest = piece;
    for _ in 0..u64::MAX {
        if rest.is_empty() {
            return Ok(());
        }
        match file.write(rest) {
            Ok(0) => return Err(Failed),
            Ok(count) => rest = &rest[count..],
            Err(error) => {
                if error.kind() != ErrorKind::Interrupted {
                    return Err(Failed);
                }
            }
        }
    }
    Err(Failed)
}

// The same on an output of the process.
fn print_piece<P: Print>(out: &P, piece: &[u8]) -> Result<(), Failed> {
    let mut rest = piece;
    for _ in 0..u64::MAX {
        if rest.is_empty() {
            return Ok(());
        }
        match out.write_some(rest) {
            Ok(0) => return Err(Failed),
            Ok(count) => rest = &rest[count..],
            Err(error) => {
                if error.kind() != ErrorKind::Interrupted {
                    return Err(Failed);
                }
            }
        }
    }
    Err(Failed)
}

impl Host for RealHost {
    ghost use Rattle.std.specs.Prelude.{None, is_some};

    ghost faults = { λ h. h.faults };

    ghost complaint_faults = { λ h. h.complaint_faults };

    ghost made = { λ h. is_some h.created };

    ghost told = { λ _. None };

    fn load(&mut self, alloc: Global, path: &str, limit: u64) -> Result<Vec<u8>, LoadFault> {
        match read_file(&self.rt, alloc, path, limit) {
            Err(LoadFault::Failed) => {
                self.faults = self.faults.saturating_add(1);
                Err(LoadFault::Failed)
            }
            Err(LoadFault::TooLong) => Err(LoadFault::TooLong),
            Err(LoadFault::Memory) => Err(LoadFault::Memory),
            Ok(bytes) => Ok(bytes),
        }
    }

    fn create(&mut self, _alloc: Global, path: &str) -> Result<(), CreateFault> {
        match File::create(&self.rt, path) {
            Ok(file) => {
                self.created = Some(file);
                Ok(())
            }
            Err(error) => match create_fault(error) {
                CreateFault::Memory => Err(CreateFault::Memory),
                CreateFault::Failed => {
                    self.faults = self.faults.saturating_add(1);
                    Err(CreateFault::Failed)
                }
            },
        }
    }

    fn append(&mut self, bytes: &[u8]) -> Result<(), Failed> {
        let Some(file) = &mut self.created else {
            unreachable!();
        };
        match write_piece(file, bytes) {
            Ok(()) => Ok(()),
            Err(Failed) => {
                self.faults = self.faults.saturating_add(1);
                Err(Failed)
            }
        }
    }

    fn say(&mut self, bytes: &[u8]) -> Result<(), Failed> {
        match print_piece(&self.rt.stdout(), bytes) {
            Ok(()) => Ok(()),
            Err(Failed) => {
                self.faults = self.faults.saturating_add(1);
                Err(Failed)
            }
        }
    }

    fn complain(&mut self, bytes: &[u8]) -> Result<(), Failed> {
        match print_piece(&self.rt.stderr(), bytes) {
            Ok(()) => Ok(()),
            Err(Failed) => {
                self.complaint_faults = self.complaint_faults.saturating_add(1);
                Err(Failed)
            }
        }
    }

    fn proved(&mut self, _alloc: Global, _goal: Proved) -> Result<(), Memory> {
        Ok(())
    }
}

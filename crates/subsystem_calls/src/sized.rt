//! What C is told in a struct of its own, as that struct's bytes. How many it has goes with the call: of a program that was compiled with
//! fewer fields it is the first ones, and what this library does not know is zero.

ghost use Rattle.std.specs.Prelude.{◌≡◌, ◌+◌, ◌++◌, ◌≤◌, length};
ghost use Rattle.arrayvec.specs.ArrayVec.{array_vec_len};
ghost use Rattle.subsystem_calls.specs.Sized.{fitted, program_bytes, progress_bytes, registers_bytes};

use arrayvec::ArrayVec;
use dasd_subsystem::{RunProgress, ShownProgram, ShownRegisters};

// The bytes of a struct, 40 at most.
type Fields = ArrayVec<u8, 40>;

/// Tells a program.
pub(crate) fn tell_program(told: &mut [u8], program: &ShownProgram)
    ensures { told.new ≡ fitted (length told.old) (program_bytes program.now) }
{
    fit(told, program_bytes(program).as_slice());
}

fn program_bytes(program: &ShownProgram) -> Fields
    ensures { result.items ≡ program_bytes program.now }
{
    let mut out = Fields::new();
    put(&mut out, &program.last.to_le_bytes());
    put(&mut out, &program.next.to_le_bytes());
    put(&mut out, &program.address.to_le_bytes());
    put(&mut out, &program.place.to_le_bytes());
    put(&mut out, &program.count.to_le_bytes());
    put(&mut out, &program.residual.to_le_bytes());
    put(&mut out, &[program.device, program.key, program.phase]);
    put(&mut out, &[program.asked, program.code, program.flags]);
    put(&mut out, &program.reserved);
    out
}

/// Tells what a drive remembers.
pub(crate) fn tell_registers(told: &mut [u8], registers: &ShownRegisters)
    ensures { told.new ≡ fitted (length told.old) (registers_bytes registers.now) }
{
    fit(told, registers_bytes(registers).as_slice());
}

fn registers_bytes(registers: &ShownRegisters) -> Fields
    ensures { result.items ≡ registers_bytes registers.now }
{
    let mut out = Fields::new();
    put(&mut out, &registers.passed.to_le_bytes());
    put(&mut out, &registers.credited.to_le_bytes());
    put(&mut out, &registers.cylinder.to_le_bytes());
    put(&mut out, &registers.head.to_le_bytes());
    put(&mut out, &registers.sense);
    put(&mut out, &[registers.area, registers.lap]);
    put(
        &mut out,
        &[registers.mask, registers.mask_set, registers.credit],
    );
    put(&mut out, &registers.reserved);
    put(&mut out, &[0; 6]);
    out
}

/// Tells what came of units.
pub fn tell_progress(told: &mut [u8], progress: &RunProgress)
    ensures { told.new ≡ fitted (length told.old) (progress_bytes progress.now) }
{
    fit(told, progress_bytes(progress).as_slice());
}

fn progress_bytes(progress: &RunProgress) -> Fields
    ensures { result.items ≡ progress_bytes progress.now }
{
    let mut out = Fields::new();
    put(&mut out, &progress.cylinders.to_le_bytes());
    put(&mut out, &progress.units.to_le_bytes());
    put(&mut out, &progress.bytes.to_le_bytes());
    put(&mut out, &progress.indexes.to_le_bytes());
    put(&mut out, &progress.stored.to_le_bytes());
    put(&mut out, &progress.low.to_le_bytes());
    put(&mut out, &progress.high.to_le_bytes());
    put(&mut out, &[progress.subchannel, progress.device]);
    put(&mut out, &[progress.asked, progress.stopped]);
    put(&mut out, &progress.reserved);
    out
}

// Bytes more.
fn put(out: &mut ArrayVec<u8, 40>, bytes: &[u8])
    requires { array_vec_len out.old + length bytes.now ≤ 40 }
    ensures items { out.new.items ≡ out.old.items ++ bytes.now }
    ensures len { array_vec_len out.new ≡ array_vec_len out.old + length bytes.now }
{
    match out.try_extend_from_slice(bytes) {
        Ok(()) => {}
        Err(_) => unreachable!(),
    }
}

// Puts as many of these bytes as there is room for, and zeros behind the last of them.
fn fit(told: &mut [u8], bytes: &[u8])
    ensures { told.new ≡ fitted (length told.old) bytes.now }
{
    let len = told.len().min(bytes.len());
    told[..len].copy_from_slice(&bytes[..len]);
    told[len..].fill(0);
}

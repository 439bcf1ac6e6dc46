//! The paths of an image, as they are printed.

ghost use Rattle.std.specs.Prelude.{◌≡◌, map, string_bytes, if◌then◌else◌, Some, None, IfOk, IfErr};
ghost use Rattle.std.specs.Option.{option_copied};
ghost use Rattle.dasd_run.specs.Paths.{joined_paths, quoted_paths};

use program_faults::ProgramFault;
use serde_json::Value;
use std::alloc::Global;

/// The paths of an image, joined by plus signs.
pub(crate) fn joined(alloc: Global, paths: &[&str]) -> Result<String, ProgramFault>
    ensures text { IfOk result (λ text. string_bytes text ≡ joined_paths (map (λ path. path.now) paths.now)) }
    ensures fault { IfErr result (λ e. e ≡ ProgramFault.OutOfMemory) }
{
    Ok(paths.join(alloc, "+")?)
}

/// The paths of an image as one string of JSON: joined by plus signs, with quotes.
pub(crate) fn quoted(alloc: Global, paths: &[&str]) -> Result<String, ProgramFault>
    ensures text { IfOk result (λ text. string_bytes text ≡ quoted_paths (map (λ path. path.now) paths.now)) }
    ensures fault { IfErr result (λ e. e ≡ ProgramFault.OutOfMemory) }
{
    let joined = joined(alloc, paths)?;
    Ok(Value::String(joined).to_string(alloc)?)
}

/// They are printed where lines are objects of JSON.
pub(crate) fn path_if<'a>(json: bool, path: &'a str) -> Option<&'a str>
    ensures { option_copied result ≡ (if json then Some path.now else None) }
{
    json.then_some(path)
}

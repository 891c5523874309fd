// Scripts by name.
ghost use Rattle.std.specs.Prelude.{drop, Ok, IfOk, string_bytes};
ghost use Rattle.std.specs.List.{All};
ghost use Rattle.std.specs.Vec.Iter.{into_iter_items};
ghost use Rattle.script_programs.specs.Naming.{Played};

use std::alloc::{AllocError, Global};
use std::env::Args;
use std::fs;
use std::io::Write;

// Plays the scripts that the arguments name behind the program's name by `rows_of`, which is given a script's name and text, and
// prints under each name the rows of its script.
pub fn play_all<F: Fn(&str, &[u8]) -> Result<Vec<u8>, AllocError>>(
    rt: &HostRuntime,
    arguments: Args<Global>,
    rows_of: F,
) -> anyhow::Result<()>
    requires { F.IsAlwaysCallable rows_of }
    ensures { IfOk result (λ _. All (λ name. (rows : _) × Played F.Fn rows_of (string_bytes name) (Ok rows)) (drop 1 (into_iter_items arguments))) }
{
    for name in arguments.skip(1) {
        let file = format!(in rt.alloc(); "{name}.script")?;
        let script = fs::read(rt, file.as_str())?;
        let rows = rows_of(name.as_str(), script.as_slice())?;
        println!(rt; "== {name}")?;
        rt.stdout().write_all(rows.as_slice())?;
    }
    Ok(())
}

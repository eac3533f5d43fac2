//! The script that the program makes for itself.
ghost use Rattle.std.specs.Prelude.{◌≡◌, ◌++◌, ◌<◌, ◌^◌, OnOk, IfOk};
ghost use Rattle.std.specs.String.{string_bytes};
ghost use Rattle.pdl_shell.specs.Generated.{column_line, index_line, overlap_line, round_line, next_seed, generated_script};

use std::alloc::{AllocError, Global};

// The first two lines.
const FIRST_LINES: &[u8] = b"$a = sequence(8,6);\n$v = $a->slice(\"1:6,1:4\");\n";

// The seed of a round, from the one before.
fn next_seed(seed: u64) -> u64
    requires { seed < 2 ^ 31 }
    ensures next { result ≡ next_seed seed }
    ensures small { result < 2 ^ 31 }
{
    (seed * 1_103_515_245 + 12_345) % 2_147_483_648
}

// The line of a round that adds to a column of the array.
fn column_line(alloc: Global, column: u64, number: u64) -> Result<String, AllocError>
    ensures { IfOk result (λ line. string_bytes line ≡ column_line column number) }
{
    let line = format!(in alloc; "$a->slice(\"{column},:\") += {number};\n")?;
    Ok(line)
}

// The line of a round that writes two rows of a view of the array by their indices.
fn index_line(alloc: Global, row: u64, number: u64) -> Result<String, AllocError>
    ensures { IfOk result (λ line. string_bytes line ≡ index_line row number) }
{
    let line = format!(in alloc; "$v->xchg(0,1)->index(pdl [[{row}],[0]]) .= {number};\n")?;
    Ok(line)
}

// The line of a round that writes a part of the array over one that it overlaps.
fn overlap_line(alloc: Global, number: u64) -> Result<String, AllocError>
    ensures { IfOk result (λ line. string_bytes line ≡ overlap_line number) }
{
    let line = format!(in alloc; "$v .= $a->slice(\"0:5,0:3\") + {number};\n")?;
    Ok(line)
}

// The line of a round, by the high bits of its seed.
fn round_line(alloc: Global, bits: u64) -> Result<String, AllocError>
    ensures { IfOk result (λ line. string_bytes line ≡ round_line bits) }
{
    let number = bits / 48 % 100;
    match bits % 4 {
        0 => column_line(alloc, bits % 8, number),
        1 => index_line(alloc, bits / 8 % 6 % 4, number),
        2 => overlap_line(alloc, number),
        _ => String::from_str(alloc, "p $v->sumover;\n"),
    }
}

// The script of so many rounds.
pub(crate) fn generated_script(alloc: Global, rounds: u16) -> Result<Vec<u8>, AllocError>
    ensures { IfOk result (λ script. script.items ≡ generated_script rounds) }
{
    let mut script = Vec::new(alloc);
    if rounds == 0 {
        return Ok(script);
    }
    script.extend_from_slice(FIRST_LINES)?;
    let mut seed = next_seed(1);
    'making: for _round in 0..rounds {
        let line = round_line(alloc, seed / 65_536)?;
        script.extend_from_slice(line.as_bytes())?;
        seed = next_seed(seed);
    }
    Ok(script)
}

//! Programs that are made from a number, for a program to test itself on.
//!
//! The text is defined line by line in `specs/Program.antt`. Three threads each call `n` functions four times, each call in an atomic
//! block of its own that adds to two of `n` counters; so a run that ends prints `36 * n` under every schedule.
#![tactic(auto)]

ghost use Rattle.std.specs.Prelude.{◌≡◌, ◌≤◌, ◌<◌, ◌++◌, ℕ, IfOk, OnOk};
ghost use Rattle.std.specs.String.{string_bytes};
ghost use Rattle.prog_gen.specs.Program.{lines, counters, function_line, block_line, worker, printer, main_lines, program as program_text};

use std::alloc::{AllocError, Global};

/// The program made from `n`, in the bytes of its text.
pub fn program(alloc: Global, n: u32) -> Result<Vec<u8>, AllocError>
    requires least { 1 ≤ n }
    requires most { n ≤ 400 }
    ensures { IfOk result (λ text. text.items ≡ program_text n) }
{
    let mut text = String::new(alloc);
    writeln!(text, "long c[{n}];")?;
    write_functions(&mut text, n)?;
    write_worker(&mut text, n)?;
    write_main(&mut text, n)?;
    Ok(text.into_bytes())
}

fn write_functions(text: &mut String, n: u32) -> Result<(), AllocError>
    requires { n ≤ 400 }
    ensures { OnOk result (string_bytes text.new ≡ string_bytes text.old ++ lines (function_line n) n) }
{
    for i in 0..n {
        write_function(text, n, i)?;
    }
    Ok(())
}

/// The function with this index: it adds 1 to its own counter and 2 to another.
fn write_function(text: &mut String, n: u32, i: u32) -> Result<(), AllocError>
    requires most { n ≤ 400 }
    requires below { i < n }
    ensures { OnOk result (string_bytes text.new ≡ string_bytes text.old ++ function_line n i) }
{
    let j = (7 * i + 3) % n;
    writeln!(
        text,
        "void f{i}() transaction_safe {{ c[{i}] = c[{i}] + 1; c[{j}] = c[{j}] + 2; }}"
    )
}

/// The function that each thread runs.
fn write_worker(text: &mut String, n: u32) -> Result<(), AllocError>
    ensures { OnOk result (string_bytes text.new ≡ string_bytes text.old ++ worker n) }
{
    text.push_str("void w(long) { for (int k = 0; k < 4; ++k) {\n")?;
    write_blocks(text, n)?;
    text.push_str("} }\n")?;
    Ok(())
}

fn write_blocks(text: &mut String, n: u32) -> Result<(), AllocError>
    ensures { OnOk result (string_bytes text.new ≡ string_bytes text.old ++ lines block_line n) }
{
    for i in 0..n {
        writeln!(text, "atomic_noexcept {{ f{i}(); }}")?;
    }
    Ok(())
}

fn write_main(text: &mut String, n: u32) -> Result<(), AllocError>
    ensures { OnOk result (string_bytes text.new ≡ string_bytes text.old ++ (printer ++ main_lines n)) }
{
    text.push_str("void print(long v) { if (v > 9) print(v / 10); putchar('0' + v % 10); }\n")?;
    text.push_str(
        "int main() { int a = __txcc_spawn(w, 0); int b = __txcc_spawn(w, 0); int d = __txcc_spawn(w, 0);\n",
    )?;
    text.push_str("__txcc_join(a); __txcc_join(b); __txcc_join(d); long s = 0;\n")?;
    writeln!(text, "for (int i = 0; i < {n}; ++i) s = s + c[i];")?;
    text.push_str("print(s); putchar(10); return 0; }\n")?;
    Ok(())
}

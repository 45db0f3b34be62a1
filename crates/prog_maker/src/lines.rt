// The lines of a made program, appended to a buffer.
ghost use Rattle.std.specs.Prelude.{◌≡◌, ◌≤◌, ◌∷◌, [], ◌++◌, OnOk, decimal, flat_map, map};
ghost use Rattle.line_text.specs.Lines.{text_of};
ghost use Rattle.prog_maker.specs.Made.{assert_line, copy_lines, create_lines, first_thread, join_line, main_lines, numbers_below, second_thread, variables_line};

use dg_base::OutOfMemory;
use line_text::{put, put_number};

// Appends the text, and the number behind it.
fn put_numbered(out: &mut Vec<u8>, text: &[u8], number: u32) -> Result<(), OutOfMemory>
    ensures { OnOk result (out.new.items ≡ out.old.items ++ (text.now ++ decimal number)) }
{
    put(out, text)?;
    put_number(out, number)
}

fn put_variables(out: &mut Vec<u8>, i: u32) -> Result<(), OutOfMemory>
    ensures { OnOk result (out.new.items ≡ out.old.items ++ (variables_line i ++ 10 ∷ [])) }
{
    put_numbered(out, b"int x", i)?;
    put_numbered(out, b", y", i)?;
    put_numbered(out, b", r", i)?;
    put_numbered(out, b", s", i)?;
    put(out, b";\n")
}

fn put_first_thread(out: &mut Vec<u8>, i: u32) -> Result<(), OutOfMemory>
    ensures { OnOk result (out.new.items ≡ out.old.items ++ (first_thread i ++ 10 ∷ [])) }
{
    put_numbered(out, b"void *a", i)?;
    put_numbered(out, b"(void *p) { x", i)?;
    put_numbered(out, b" = 1; r", i)?;
    put_numbered(out, b" = y", i)?;
    put(out, b"; return 0; }\n")
}

fn put_second_thread(out: &mut Vec<u8>, i: u32) -> Result<(), OutOfMemory>
    ensures { OnOk result (out.new.items ≡ out.old.items ++ (second_thread i ++ 10 ∷ [])) }
{
    put_numbered(out, b"void *b", i)?;
    put_numbered(out, b"(void *p) { y", i)?;
    put_numbered(out, b" = 1; s", i)?;
    put_numbered(out, b" = x", i)?;
    put(out, b"; return 0; }\n")
}

fn put_copy(out: &mut Vec<u8>, i: u32) -> Result<(), OutOfMemory>
    ensures { OnOk result (out.new.items ≡ out.old.items ++ text_of (copy_lines i)) }
{
    put_variables(out, i)?;
    put_first_thread(out, i)?;
    put_second_thread(out, i)
}

/// Appends main's first lines, for so many threads.
pub fn put_main(out: &mut Vec<u8>, threads: u32) -> Result<(), OutOfMemory>
    ensures { OnOk result (out.new.items ≡ out.old.items ++ text_of (main_lines threads)) }
{
    put_numbered(out, b"int main() {\n  pthread_t t[", threads)?;
    put(out, b"];\n")
}

fn put_create(out: &mut Vec<u8>, i: u32) -> Result<(), OutOfMemory>
    requires { i ≤ 15 }
    ensures { OnOk result (out.new.items ≡ out.old.items ++ text_of (create_lines i)) }
{
    put_numbered(out, b"  pthread_create(&t[", 2 * i)?;
    put_numbered(out, b"], 0, a", i)?;
    put(out, b", 0);\n")?;
    put_numbered(out, b"  pthread_create(&t[", 2 * i + 1)?;
    put_numbered(out, b"], 0, b", i)?;
    put(out, b", 0);\n")
}

fn put_join(out: &mut Vec<u8>, thread: u32) -> Result<(), OutOfMemory>
    ensures { OnOk result (out.new.items ≡ out.old.items ++ (join_line thread ++ 10 ∷ [])) }
{
    put_numbered(out, b"  pthread_join(t[", thread)?;
    put(out, b"], 0);\n")
}

fn put_assert(out: &mut Vec<u8>, i: u32) -> Result<(), OutOfMemory>
    ensures { OnOk result (out.new.items ≡ out.old.items ++ (assert_line i ++ 10 ∷ [])) }
{
    put_numbered(out, b"  assert(!(r", i)?;
    put_numbered(out, b" == 0 && s", i)?;
    put(out, b" == 0));\n")
}

/// Appends so many copies.
pub fn put_copies(out: &mut Vec<u8>, number: u32) -> Result<(), OutOfMemory>
    ensures { OnOk result (out.new.items ≡ out.old.items ++ text_of (flat_map copy_lines (numbers_below number))) }
{
    for i in 0..number {
        put_copy(out, i)?;
    }
    Ok(())
}

/// Appends the creates of so many copies' threads.
pub fn put_creates(out: &mut Vec<u8>, number: u32) -> Result<(), OutOfMemory>
    requires { number ≤ 16 }
    ensures { OnOk result (out.new.items ≡ out.old.items ++ text_of (flat_map create_lines (numbers_below number))) }
{
    for i in 0..number {
        put_create(out, i)?;
    }
    Ok(())
}

/// Appends the joins of so many threads.
pub fn put_joins(out: &mut Vec<u8>, threads: u32) -> Result<(), OutOfMemory>
    ensures { OnOk result (out.new.items ≡ out.old.items ++ text_of (map join_line (numbers_below threads))) }
{
    for i in 0..threads {
        put_join(out, i)?;
    }
    Ok(())
}

/// Appends the assertions of so many copies.
pub fn put_asserts(out: &mut Vec<u8>, number: u32) -> Result<(), OutOfMemory>
    ensures { OnOk result (out.new.items ≡ out.old.items ++ text_of (map assert_line (numbers_below number))) }
{
    for i in 0..number {
        put_assert(out, i)?;
    }
    Ok(())
}

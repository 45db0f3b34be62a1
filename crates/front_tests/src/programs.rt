// Checked programs of texts.
ghost use Rattle.std.specs.Prelude.{◌≤◌};

use c_check::Checked;
use c_program::read_program;
use dg_base::{LimitKind, Place, Refusal};
use std::alloc::Global;
use std::test::Fail;

fn is_text(bytes: &[u8], text: &str) -> bool {
    bytes == text.as_bytes()
}

// Whether these are the functions' names.
fn has_functions(checked: &Checked, names: &[&str]) -> bool {
    checked.functions.len() == names.len()
        && checked
            .functions
            .as_slice()
            .iter()
            .zip(names)
            .all(|(name, text)| is_text(name.as_slice(), text))
}

// Whether these are the cells, with what they begin with.
fn has_cells(checked: &Checked, cells: &[(&str, u32)]) -> bool {
    checked.cells.len() == cells.len()
        && checked.cells.as_slice().iter().zip(cells).all(|(cell, (text, initial))| {
            is_text(cell.name.as_slice(), text) && cell.initial == *initial
        })
}

#[test]
fn names_and_cells_of_a_program(rt: HostRuntime) -> Result<(), Fail> {
    let text = "#define CELLS 2
static int a[CELLS], x = 3;
void *f(void *p) { x = 1; return 0; }
int main(void) { a[1] = x; return 0; }
";
    match read_program(rt.alloc(), text.as_bytes(), 5, false) {
        Ok(checked) => {
            assert!(rt; has_functions(&checked, &["f", "main"]));
            assert!(rt; has_cells(&checked, &[("a[0]", 0), ("a[1]", 0), ("x", 3)]));
            assert_eq!(rt; checked.k, 5);
            drop(checked);
        }
        Err(_) => assert!(rt; false),
    }
    Ok(())
}

// Why the text is refused for a bound; nothing where it is accepted.
fn refused(alloc: Global, text: &str, bound: u32) -> Option<Refusal>
    requires { (1 ≤ bound) × (bound ≤ 64) }
{
    match read_program(alloc, text.as_bytes(), bound, false) {
        Ok(checked) => {
            drop(checked);
            None
        }
        Err(refusal) => Some(refusal),
    }
}

#[test]
fn refusals_by_the_bound_and_by_the_place(rt: HostRuntime) -> Result<(), Fail> {
    let loops = "int x;
int main() { int i, j;
  for (i = 0; i < 2; i++) for (j = 0; j < 2; j++) x = 1;
  return 0; }
";
    assert!(rt; refused(rt.alloc(), loops, 2).is_none());
    assert!(rt;
        matches!(
            &refused(rt.alloc(), loops, 64),
            Some(Refusal::Limit(LimitKind::Accesses, 4096))
        )
    );
    assert!(rt;
        matches!(
            &refused(rt.alloc(), "int @;", 1),
            Some(Refusal::BadByte(Place { line: 1, col: 5 }))
        )
    );
    assert!(rt;
        matches!(
            &refused(rt.alloc(), "int main() {\n  return 0", 1),
            Some(Refusal::Syntax(Place { line: 2, col: 11 }))
        )
    );
    Ok(())
}

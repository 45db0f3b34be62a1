// Made programs by their bytes.
use crate::{MakeFault, try_make_program};
use std::test::Fail;

#[test]
fn one_copy_by_its_text(rt: HostRuntime) -> Result<(), Fail> {
    let wanted = "int x0, y0, r0, s0;
void *a0(void *p) { x0 = 1; r0 = y0; return 0; }
void *b0(void *p) { y0 = 1; s0 = x0; return 0; }
int main() {
  pthread_t t[2];
  pthread_create(&t[0], 0, a0, 0);
  pthread_create(&t[1], 0, b0, 0);
  pthread_join(t[0], 0);
  pthread_join(t[1], 0);
  assert(!(r0 == 0 && s0 == 0));
  return 0;
}
";
    match try_make_program(rt.alloc(), 1) {
        Ok(text) => {
            assert!(rt; text.as_slice() == wanted.as_bytes());
            drop(text);
        }
        Err(_) => assert!(rt; false),
    }
    Ok(())
}

#[test]
fn byte_counts_and_refusals(rt: HostRuntime) -> Result<(), Fail> {
    for (number, bytes) in [(1, 316), (4, 1129), (8, 2226), (16, 4522)] {
        match try_make_program(rt.alloc(), number) {
            Ok(text) => {
                assert_eq!(rt; text.len(), bytes, "of {number} copies");
                drop(text);
            }
            Err(_) => assert!(rt; false),
        }
    }
    for number in [0, 17, 4294967295] {
        match try_make_program(rt.alloc(), number) {
            Ok(text) => {
                drop(text);
                assert!(rt; false);
            }
            Err(fault) => assert!(rt; fault == MakeFault::Number),
        }
    }
    Ok(())
}

// Programs as users have them.

// A program as a user of software verification has it, with includes, externs and attributes.
pub(crate) fn fibonacci() -> &'static str {
    "#include <pthread.h>
extern void abort(void);
extern void __assert_fail(const char *, const char *, unsigned int, const char *) __attribute__ ((__nothrow__ , __leaf__)) __attribute__ ((__noreturn__));
void reach_error() { __assert_fail(\"0\", \"fib.c\", 4, \"reach_error\"); }
extern void __VERIFIER_atomic_begin(void);
extern void __VERIFIER_atomic_end(void);
#define NUM 2
int i = 1, j = 1;
void *t1(void *arg) {
  for (int k = 0; k < NUM; k++) { __VERIFIER_atomic_begin(); i = i + j; __VERIFIER_atomic_end(); }
  pthread_exit(NULL);
}
void *t2(void *arg) {
  for (int k = 0; k < NUM; k++) { __VERIFIER_atomic_begin(); j = j + i; __VERIFIER_atomic_end(); }
  pthread_exit(NULL);
}
int main(int argc, char **argv) {
  pthread_t id1, id2;
  pthread_create(&id1, NULL, t1, NULL);
  pthread_create(&id2, NULL, t2, NULL);
  __VERIFIER_atomic_begin();
  int ok = i < 9;
  __VERIFIER_atomic_end();
  if (!ok) { ERROR: { reach_error(); abort(); } }
  return 0;
}
"
}

// The same, with an assertion that one order of the sections violates.
pub(crate) fn fibonacci_reached() -> &'static str {
    "#include <pthread.h>
extern void abort(void);
extern void __assert_fail(const char *, const char *, unsigned int, const char *) __attribute__ ((__nothrow__ , __leaf__)) __attribute__ ((__noreturn__));
void reach_error() { __assert_fail(\"0\", \"fib.c\", 4, \"reach_error\"); }
extern void __VERIFIER_atomic_begin(void);
extern void __VERIFIER_atomic_end(void);
#define NUM 2
int i = 1, j = 1;
void *t1(void *arg) {
  for (int k = 0; k < NUM; k++) { __VERIFIER_atomic_begin(); i = i + j; __VERIFIER_atomic_end(); }
  pthread_exit(NULL);
}
void *t2(void *arg) {
  for (int k = 0; k < NUM; k++) { __VERIFIER_atomic_begin(); j = j + i; __VERIFIER_atomic_end(); }
  pthread_exit(NULL);
}
int main(int argc, char **argv) {
  pthread_t id1, id2;
  pthread_create(&id1, NULL, t1, NULL);
  pthread_create(&id2, NULL, t2, NULL);
  __VERIFIER_atomic_begin();
  int ok = i < 8;
  __VERIFIER_atomic_end();
  if (!ok) { ERROR: { reach_error(); abort(); } }
  return 0;
}
"
}

// Two threads count under a mutex.
pub(crate) fn counting() -> &'static str {
    "int x; pthread_mutex_t m;
void *f(void *p) { pthread_mutex_lock(&m); x = x + 1; pthread_mutex_unlock(&m); return 0; }
int main() {
  pthread_t s, t;
  pthread_create(&s, 0, f, 0); pthread_create(&t, 0, f, 0);
  pthread_join(s, 0); pthread_join(t, 0);
  assert(x == 2);
  return 0; }
"
}

// The same, created and joined in loops over an array.
pub(crate) fn counting_in_loops() -> &'static str {
    "int x; pthread_mutex_t m = PTHREAD_MUTEX_INITIALIZER;
void *f(void *p) { pthread_mutex_lock(&m); x = x + 1; pthread_mutex_unlock(&m); return 0; }
int main() {
  pthread_t t[2];
  for (int i = 0; i < 2; i++) pthread_create(&t[i], 0, f, 0);
  for (int i = 1; i >= 0; i--) pthread_join(t[i], 0);
  assert(x == 2);
  return 0; }
"
}

// Six threads count under a mutex; it wants six turns of a loop.
pub(crate) fn counting_by_six() -> &'static str {
    "int x; pthread_mutex_t m;
void *f(void *p) { pthread_mutex_lock(&m); x = x + 1; pthread_mutex_unlock(&m); return 0; }
int main() {
  pthread_t t[6];
  for (int i = 0; i < 6; i++) pthread_create(&t[i], 0, f, 0);
  for (int i = 0; i < 6; i++) pthread_join(t[i], 0);
  assert(x == 6);
  return 0; }
"
}

// The program's own `assert` and `reach_error`.
pub(crate) fn own_assertions() -> &'static str {
    "void assert(int e) { if (!e) reach_error(); }
void reach_error() { abort(); }
int main() { assert(1); return 0; }
"
}

//! Texts that are wrong, and what a reader is told.
use loom_text::error::{Mistake, Problem, ReadError, report};
use loom_text::read::read;
use std::alloc::{AllocError, Global};

// Statements that are wrong on the fourth line of a test, and what is told of each: the first line, and the marks.
const STATEMENTS: [(&str, &str, &str); 53] = [
    (
        "  int r0 = r5;",
        "note.litmus:4:12: not declared before",
        "           ^^",
    ),
    ("  r5 = 1;", "note.litmus:4:3: not declared before", "  ^^"),
    ("  *y = 1;", "note.litmus:4:4: not declared before", "   ^"),
    (
        "  int r0 = r0;",
        "note.litmus:4:12: not declared before",
        "           ^^",
    ),
    (
        "  int r0 = 1; int r0 = 2;",
        "note.litmus:4:19: declared twice",
        "                  ^^",
    ),
    ("  int x = 1;", "note.litmus:4:7: declared twice", "      ^"),
    (
        "  int r0 = x;",
        "note.litmus:4:12: not supported: pointers as values",
        "           ^",
    ),
    (
        "  int r0 = &x;",
        "note.litmus:4:12: not supported: pointers as values",
        "           ^",
    ),
    (
        "  int *r0 = p;",
        "note.litmus:4:7: not supported: pointers as values",
        "      ^",
    ),
    (
        "  int r0 = **p;",
        "note.litmus:4:13: not supported: pointers as values",
        "            ^",
    ),
    (
        "  int r0[2];",
        "note.litmus:4:9: not supported: arrays",
        "        ^",
    ),
    (
        "  atomic_int r0 = 1;",
        "note.litmus:4:3: not supported: this type",
        "  ^^^^^^^^^^",
    ),
    (
        "  long r0 = 1;",
        "note.litmus:4:3: not supported: this type",
        "  ^^^^",
    ),
    (
        "  uint r0 = 1;",
        "note.litmus:4:3: not supported: this type",
        "  ^^^^",
    ),
    (
        "  int r0 = atomic_load_explicit(x, acquire);",
        "note.litmus:4:36: expected an order such as memory_order_acquire",
        "                                   ^^^^^^^",
    ),
    (
        "  int r0 = atomic_load_explicit(x, memory_order_release);",
        "note.litmus:4:36: a load takes memory_order_relaxed, memory_order_acquire or memory_order_seq_cst",
        "                                   ^^^^^^^^^^^^^^^^^^^^",
    ),
    (
        "  atomic_compare_exchange_weak_explicit(x, 0, 1, memory_order_seq_cst, memory_order_acq_rel);",
        "note.litmus:4:72: a load takes memory_order_relaxed, memory_order_acquire or memory_order_seq_cst",
        "                                                                       ^^^^^^^^^^^^^^^^^^^^",
    ),
    (
        "  atomic_store_explicit(x, 1, memory_order_acquire);",
        "note.litmus:4:31: a store takes memory_order_relaxed, memory_order_release or memory_order_seq_cst",
        "                              ^^^^^^^^^^^^^^^^^^^^",
    ),
    (
        "  int r0 = atomic_load_explicit(x, memory_order_consume);",
        "note.litmus:4:36: not supported: memory_order_consume",
        "                                   ^^^^^^^^^^^^^^^^^^^^",
    ),
    (
        "  int r0 = atomic_load_explicit(x);",
        "note.litmus:4:34: wrong number of arguments: this call has 2",
        "                                 ^",
    ),
    (
        "  int r0 = atomic_load(x, memory_order_acquire);",
        "note.litmus:4:25: wrong number of arguments: this call has 1",
        "                        ^",
    ),
    (
        "  mtx_lock();",
        "note.litmus:4:12: wrong number of arguments: this call has 1",
        "           ^",
    ),
    (
        "  atomic_compare_exchange_strong(x, 0);",
        "note.litmus:4:38: wrong number of arguments: this call has 3",
        "                                     ^",
    ),
    (
        "  thrd_yield(1);",
        "note.litmus:4:14: expected `)`",
        "             ^",
    ),
    (
        "  atomic_load(p);",
        "note.litmus:4:15: expected atomic_int, and this is int",
        "              ^",
    ),
    (
        "  mtx_lock(x);",
        "note.litmus:4:12: expected mtx_t, and this is atomic_int",
        "           ^",
    ),
    (
        "  cnd_wait(m, m);",
        "note.litmus:4:12: expected cnd_t, and this is mtx_t",
        "           ^",
    ),
    (
        "  *x = 1;",
        "note.litmus:4:4: not supported: `*` at an atomic_int: write atomic_load or atomic_store",
        "   ^",
    ),
    (
        "  int r0 = *x;",
        "note.litmus:4:13: not supported: `*` at an atomic_int: write atomic_load or atomic_store",
        "            ^",
    ),
    (
        "  int r0 = mtx_lock(m);",
        "note.litmus:4:12: this call is read only as a statement, and has no value here",
        "           ^^^^^^^^",
    ),
    (
        "  malloc(4);",
        "note.litmus:4:3: not supported: this function",
        "  ^^^^^^",
    ),
    (
        "  int r0 = f(1);",
        "note.litmus:4:12: not supported: this function",
        "           ^",
    ),
    (
        "  for (;;) { }",
        "note.litmus:4:3: not supported: this statement",
        "  ^^^",
    ),
    (
        "  return;",
        "note.litmus:4:3: not supported: this statement",
        "  ^^^^^^",
    ),
    (
        "  int r0 = 1; r0 += 1;",
        "note.litmus:4:18: not supported: assignments other than with `=`",
        "                 ^",
    ),
    (
        "  int r0 = 1; r0++;",
        "note.litmus:4:17: not supported: assignments other than with `=`",
        "                ^",
    ),
    (
        "  int r0 = (int) 1;",
        "note.litmus:4:13: not supported: casts",
        "            ^^^",
    ),
    (
        "  int r0 = 1 ? 2 : 3;",
        "note.litmus:4:14: not supported: `? :`",
        "             ^",
    ),
    (
        "  int r0 = ;",
        "note.litmus:4:12: expected an expression",
        "           ^",
    ),
    (
        "  int r0 = 1 +;",
        "note.litmus:4:15: expected an expression",
        "              ^",
    ),
    (
        "  int r0 = (1;",
        "note.litmus:4:14: expected `)`",
        "             ^",
    ),
    ("  int = 1;", "note.litmus:4:7: expected a name", "      ^"),
    (
        "  int r0 = 0x;",
        "note.litmus:4:12: expected a decimal or hexadecimal number",
        "           ^^",
    ),
    (
        "  int r0 = 010;",
        "note.litmus:4:12: expected a decimal or hexadecimal number",
        "           ^",
    ),
    (
        "  int r0 = 2147483648;",
        "note.litmus:4:12: the number does not fit an `int`",
        "           ^^^^^^^^^^",
    ),
    (
        "  int r0 = 1 @ 2;",
        "note.litmus:4:14: no word or sign begins with this character",
        "             ^",
    ),
    (
        "  else { }",
        "note.litmus:4:3: expected a statement, or `}`",
        "  ^^^^",
    ),
    ("  if r0 { }", "note.litmus:4:6: expected `(`", "     ^^"),
    (
        "  do { } (1);",
        "note.litmus:4:10: expected `while`",
        "         ^",
    ),
    (
        "  exists = 1;",
        "note.litmus:4:3: expected a statement, or `}`",
        "  ^^^^^^",
    ),
    (
        "  atomic_store(1, 1);",
        "note.litmus:4:16: expected a location, one of the thread's parameters",
        "               ^",
    ),
    (
        "  int r0 = 1; atomic_load(r0);",
        "note.litmus:4:27: expected a location, one of the thread's parameters",
        "                          ^^",
    ),
    (
        "  int r0 = \"text\";",
        "note.litmus:4:12: no word or sign begins with this character",
        "           ^",
    ),
];

// Whole texts, and what is told of each.
const TEXTS: [(&str, &str); 47] = [
    (
        "",
        "note.litmus:1:1: expected `C` and a name, as in `C SB`\n\n^\n",
    ),
    (
        "X86 SB\n",
        "note.litmus:1:1: expected `C` and a name, as in `C SB`\nX86 SB\n^^^\n",
    ),
    (
        "C\n{ }\n",
        "note.litmus:2:1: expected a name, as in `C SB`\n{ }\n^\n",
    ),
    (
        "C t\nP0 () { }\n",
        "note.litmus:2:1: expected `{`\nP0 () { }\n^^\n",
    ),
    (
        "C t \"text\n{ }\n",
        "note.litmus:1:5: the quoted text has no end\nC t \"text\n    ^\n",
    ),
    (
        "C t\n{ x }",
        "note.litmus:2:5: expected `=`\n{ x }\n    ^\n",
    ),
    (
        "C t\n{ = 1 }",
        "note.litmus:2:3: expected an initial value such as `x = 1` or `int x = 1`, or `}`\n{ = 1 }\n  ^\n",
    ),
    (
        "C t\n{ x=1 y=2 }",
        "note.litmus:2:7: expected `;`\n{ x=1 y=2 }\n      ^\n",
    ),
    (
        "C t\n{ int a[2]; }",
        "note.litmus:2:8: not supported: arrays\n{ int a[2]; }\n       ^\n",
    ),
    (
        "C t\n{ 0:r0=1; }",
        "note.litmus:2:3: not supported: initial values of registers\n{ 0:r0=1; }\n  ^\n",
    ),
    (
        "C t\n{ x=1; [x]=2; }",
        "note.litmus:2:9: declared twice\n{ x=1; [x]=2; }\n        ^\n",
    ),
    (
        "C t\n{ mtx_t m=1; }",
        "note.litmus:2:10: a lock or a condition variable has no value\n{ mtx_t m=1; }\n         ^\n",
    ),
    (
        "C t\n{ x=y; }",
        "note.litmus:2:5: not supported: pointers as values\n{ x=y; }\n    ^\n",
    ),
    (
        "C t\n{ x=; }",
        "note.litmus:2:5: expected a number\n{ x=; }\n    ^\n",
    ),
    (
        "C t\n{ long x; }",
        "note.litmus:2:3: not supported: this type\n{ long x; }\n  ^^^^\n",
    ),
    (
        "C t\n{ }",
        "note.litmus:2:4: expected `P0`, the next thread\n{ }\n   ^\n",
    ),
    (
        "C t\n{ }\nP1 () { }",
        "note.litmus:3:1: expected `P0`, the next thread\nP1 () { }\n^^\n",
    ),
    (
        "C t\n{ }\nP0 () { }\nP2 () { }",
        "note.litmus:4:1: expected `P1`, the next thread\nP2 () { }\n^^\n",
    ),
    (
        "C t\n{ }\nP0 () { }\nP1 () { }\nP2 () { }\nP3 () { }\nP4 () { }",
        "note.litmus:7:1: not supported: more than four threads\nP4 () { }\n^^\n",
    ),
    (
        "C t\n{ }\nP0 (int x) { }",
        "note.litmus:3:9: not supported: parameters that are no pointers\nP0 (int x) { }\n        ^\n",
    ),
    (
        "C t\n{ }\nP0 (int** x) { }",
        "note.litmus:3:9: not supported: pointers as values\nP0 (int** x) { }\n        ^\n",
    ),
    (
        "C t\n{ }\nP0 (int* x[]) { }",
        "note.litmus:3:11: not supported: arrays\nP0 (int* x[]) { }\n          ^\n",
    ),
    (
        "C t\n{ }\nP0 (long* x) { }",
        "note.litmus:3:5: not supported: this type\nP0 (long* x) { }\n    ^^^^\n",
    ),
    (
        "C t\n{ }\nP0 (x) { }",
        "note.litmus:3:5: expected a parameter such as `atomic_int* x`\nP0 (x) { }\n    ^\n",
    ),
    (
        "C t\n{ }\nP0 (int* x, int* x) { }",
        "note.litmus:3:18: declared twice\nP0 (int* x, int* x) { }\n                 ^\n",
    ),
    (
        "C t\n{ }\nP0 (int* x) { }\nP1 (atomic_int* x) { }",
        "note.litmus:4:17: expected int, and this is atomic_int\nP1 (atomic_int* x) { }\n                ^\n",
    ),
    (
        "C t\n{ x=1; }\nP0 (mtx_t* x) { }",
        "note.litmus:3:12: a lock or a condition variable has no value\nP0 (mtx_t* x) { }\n           ^\n",
    ),
    (
        "C t\n{ }\nP0 (int* x) { }\nP1 () { *x = 1; }",
        "note.litmus:4:10: not a parameter of this thread\nP1 () { *x = 1; }\n         ^\n",
    ),
    (
        "C t\n{ }\nP0 () { int r0 = 1\n}",
        "note.litmus:4:1: expected `;`\n}\n^\n",
    ),
    (
        "C t\n{ }\nP0 () {",
        "note.litmus:3:8: expected a statement, or `}`\nP0 () {\n       ^\n",
    ),
    (
        "C t\n{ }\nP0 () { /* }",
        "note.litmus:3:9: the comment has no end\nP0 () { /* }\n        ^^\n",
    ),
    (
        "C t (* a (* b *)\n{ }",
        "note.litmus:1:5: the comment has no end\nC t (* a (* b *)\n    ^^\n",
    ),
    (
        "C t\n{ }\nP0 (int* x, mtx_t* m) { int r0; }\n",
        "note.litmus:4:1: expected `exists`, `~exists` or `forall`\n\n^\n",
    ),
    (
        "C t\n{ }\nP0 (int* x, mtx_t* m) { int r0; }\nexist (x=1)",
        "note.litmus:4:1: expected `exists`, `~exists` or `forall`\nexist (x=1)\n^^^^^\n",
    ),
    (
        "C t\n{ }\nP0 (int* x, mtx_t* m) { int r0; }\nexists",
        "note.litmus:4:7: expected a condition such as `0:r0=1` or `[x]=1`\nexists\n      ^\n",
    ),
    (
        "C t\n{ }\nP0 (int* x, mtx_t* m) { int r0; }\nexists (0:r1=1)",
        "note.litmus:4:11: the thread has no such register\nexists (0:r1=1)\n          ^^\n",
    ),
    (
        "C t\n{ }\nP0 (int* x, mtx_t* m) { int r0; }\nexists (1:r0=1)",
        "note.litmus:4:9: there is no such thread\nexists (1:r0=1)\n        ^\n",
    ),
    (
        "C t\n{ }\nP0 (int* x, mtx_t* m) { int r0; }\nexists (y=1)",
        "note.litmus:4:9: there is no such location\nexists (y=1)\n        ^\n",
    ),
    (
        "C t\n{ }\nP0 (int* x, mtx_t* m) { int r0; }\nexists (m=1)",
        "note.litmus:4:9: a lock or a condition variable has no value\nexists (m=1)\n        ^\n",
    ),
    (
        "C t\n{ }\nP0 (int* x, mtx_t* m) { int r0; }\nexists (x==1)",
        "note.litmus:4:10: expected `=`\nexists (x==1)\n         ^^\n",
    ),
    (
        "C t\n{ }\nP0 (int* x, mtx_t* m) { int r0; }\nexists (x=r0)",
        "note.litmus:4:11: not supported: pointers as values\nexists (x=r0)\n          ^^\n",
    ),
    (
        "C t\n{ }\nP0 (int* x, mtx_t* m) { int r0; }\nexists (x=1",
        "note.litmus:4:12: expected `)`\nexists (x=1\n           ^\n",
    ),
    (
        "C t\n{ }\nP0 (int* x, mtx_t* m) { int r0; }\nexists (x[0]=1)",
        "note.litmus:4:10: not supported: arrays\nexists (x[0]=1)\n         ^\n",
    ),
    (
        "C t\n{ }\nP0 (int* x, mtx_t* m) { int r0; }\nexists (x=1) 2",
        "note.litmus:4:14: expected the end of the text\nexists (x=1) 2\n             ^\n",
    ),
    (
        "C t\n{ }\nP0 (int* x, mtx_t* m) { int r0; }\nlocations [1]",
        "note.litmus:4:13: expected `:`\nlocations [1]\n            ^\n",
    ),
    (
        "C t\n{ }\nP0 (int* x, mtx_t* m) { int r0; }\nlocations x",
        "note.litmus:4:11: expected `[`\nlocations x\n          ^\n",
    ),
    (
        "C t\n{ }\nP0 (int* x, mtx_t* m) { int r0; }\nfilter x=1",
        "note.litmus:4:11: expected `exists`, `~exists` or `forall`\nfilter x=1\n          ^\n",
    ),
];

const HEAD: &str = "C t\n{ }\nP0 (atomic_int* x, int* p, mtx_t* m, cnd_t* c) {\n";

const TAIL: &str = "\n}\nexists (x=0)\n";

// What is told of the text.
fn told(alloc: Global, text: &str) -> Result<String, AllocError> {
    match read(alloc, text.as_bytes()) {
        Ok(_) => String::from_str(alloc, "nothing"),
        Err(ReadError::Wrong(mistake)) => report(alloc, "note.litmus", text.as_bytes(), &mistake),
        Err(ReadError::Memory) => String::from_str(alloc, "no memory"),
    }
}

#[test]
fn wrong_statements_are_told(rt: HostRuntime) -> Result<(), AllocError> {
    let alloc = rt.alloc();
    for (line, first, marks) in &STATEMENTS {
        let text = format!(in alloc; "{HEAD}{line}{TAIL}")?;
        let wanted = format!(in alloc; "{first}\n{line}\n{marks}\n")?;
        let found = told(alloc, &text)?;
        assert!(rt; found == wanted, "{line}: {found}");
    }
    Ok(())
}

#[test]
fn wrong_texts_are_told(rt: HostRuntime) -> Result<(), AllocError> {
    for (text, wanted) in &TEXTS {
        let found = told(rt.alloc(), text)?;
        assert!(rt; found.as_str() == *wanted, "{text}: {found}");
    }
    Ok(())
}

// The problem of the text, if it has one.
fn problem(alloc: Global, text: &[u8]) -> Option<Problem> {
    match read(alloc, text) {
        Err(ReadError::Wrong(Mistake { place: _, problem })) => Some(problem),
        Ok(_) | Err(ReadError::Memory) => None,
    }
}

// A statement of this many parts, one after another, between a beginning and an end.
fn many(
    alloc: Global,
    begins: &str,
    part: &str,
    count: usize,
    ends: &str,
) -> Result<String, AllocError> {
    let mut text = String::from_str(alloc, HEAD)?;
    text.push_str(begins)?;
    for _ in 0..count {
        text.push_str(part)?;
    }
    text.push_str(ends)?;
    text.push_str(TAIL)?;
    Ok(text)
}

#[test]
fn what_is_too_much_is_told(rt: HostRuntime) -> Result<(), AllocError> {
    let rows = [
        ("int r0 = ", "(", 1000, "1;", Some(Problem::TooDeep)),
        ("int r0 = ", "-", 1000, "1;", Some(Problem::TooDeep)),
        ("", "if (1) ", 1000, ";", Some(Problem::TooDeep)),
        ("", "{", 1000, "", Some(Problem::TooDeep)),
        ("int r0 = 1", " + 1", 256, ";", None),
        (
            "int r0 = 1",
            " + 1",
            257,
            ";",
            Some(Problem::TooManyOperators),
        ),
        ("", ";", 65_536, "", Some(Problem::TooLong)),
        ("", ";", 60_000, "", None),
    ];
    for (begins, part, count, ends, wanted) in rows {
        let text = many(rt.alloc(), begins, part, count, ends)?;
        assert!(rt; problem(rt.alloc(), text.as_bytes()) == wanted, "{part}");
    }
    Ok(())
}

// The rows of document 01's table, each by its own name: the access, then the local work. In a row's promise 0 stands for a number
// that the row does not use. A row answers for every word and stage, so that its sums go round as 16-bit numbers; in range none does.
ghost use Rattle.std.specs.Prelude.{◌≡◌};
ghost use Rattle.steps.specs.Packed.{unpacked, unpacked_step};
ghost use Rattle.steps.specs.Step.{leaves as leaves_of, resets, same_age, row_of, in_sixteen};

use steps::{Next, PackedAge, PackedStep, PackedWord, Step, Store};
use word::stages::below;
use word::{Sizes, Stage};

// A step that leaves this word, stores in no slot and is no reset.
fn leaves(word: PackedWord, next: Next) -> PackedStep
    ensures { unpacked_step result ≡ in_sixteen (leaves_of (unpacked word) next) }
{
    Step {
        word,
        store: None,
        reset: false,
        next,
    }
}

// Age becomes (0, next g), stored whole: (t, g) is the age that was loaded.
fn reset(width: u8, word: PackedWord, t: u16, g: u16, next: Next) -> PackedStep
    ensures { unpacked_step result ≡ in_sixteen (resets width (unpacked word) g next) }
{
    let age = PackedAge::of(t, g).next_age(width);
    Step {
        word: PackedWord { age, ..word },
        store: None,
        reset: true,
        next,
    }
}

// Age is still (t, g): the whole word is compared.
fn same_age(word: PackedWord, t: u16, g: u16) -> bool
    ensures { result ≡ same_age (unpacked word) t g }
{
    word.age == PackedAge::of(t, g)
}

// Load bottom as b; b = C: return FULL.
fn p1(size: u8, word: PackedWord, node: u16) -> PackedStep
    ensures { unpacked_step result ≡ in_sixteen (row_of 0 size (unpacked word) 0 (Stage.P1 node)) }
{
    let b = word.bottom;
    if b == u16::from(size) {
        leaves(word, Next::Full)
    } else {
        leaves(word, Next::Going(Stage::P2 { node, b }))
    }
}

// Store the node in slot b.
fn p2(word: PackedWord, node: u16, b: u16) -> PackedStep
    ensures { unpacked_step result ≡ in_sixteen (row_of 0 0 (unpacked word) 0 (Stage.P2 node b)) }
{
    Step {
        word,
        store: Some(Store { at: b, node }),
        reset: false,
        next: Next::Going(Stage::P3 { b }),
    }
}

// Store b+1 in bottom; return done.
fn p3(word: PackedWord, b: u16) -> PackedStep
    ensures { unpacked_step result ≡ in_sixteen (row_of 0 0 (unpacked word) 0 (Stage.P3 b)) }
{
    let bottom = b.wrapping_add(1);
    leaves(PackedWord { bottom, ..word }, Next::Done)
}

// Load age as (t, g).
fn t1(word: PackedWord) -> PackedStep
    ensures { unpacked_step result ≡ in_sixteen (row_of 0 0 (unpacked word) 0 Stage.T1) }
{
    let t = word.age.top();
    let g = word.age.tag();
    leaves(word, Next::Going(Stage::T2 { t, g }))
}

// Load bottom as b; b ≤ t: return NIL.
fn t2(word: PackedWord, t: u16, g: u16) -> PackedStep
    ensures { unpacked_step result ≡ in_sixteen (row_of 0 0 (unpacked word) 0 (Stage.T2 t g)) }
{
    let b = word.bottom;
    if b <= t {
        leaves(word, Next::Nil)
    } else {
        leaves(word, Next::Going(Stage::T3 { t, g, b }))
    }
}

// Load slot t.
fn t3(word: PackedWord, x: u16, t: u16, g: u16, b: u16) -> PackedStep
    ensures { unpacked_step result ≡ in_sixteen (row_of 0 0 (unpacked word) x (Stage.T3 t g b)) }
{
    leaves(word, Next::Going(Stage::T4 { t, g, b, x }))
}

// If age is still (t, g), age becomes (t+1, g); changed: return the node; else NIL, told apart from that of T2.
fn t4(word: PackedWord, t: u16, g: u16, b: u16, x: u16) -> PackedStep
    ensures { unpacked_step result ≡ in_sixteen (row_of 0 0 (unpacked word) 0 (Stage.T4 t g b x)) }
{
    if same_age(word, t, g) {
        let age = PackedAge::of(t.wrapping_add(1), g);
        leaves(PackedWord { age, ..word }, Next::Node(x))
    } else {
        leaves(word, Next::Lost)
    }
}

// Load bottom as b; b = 0: return NIL.
fn b1(word: PackedWord) -> PackedStep
    ensures { unpacked_step result ≡ in_sixteen (row_of 0 0 (unpacked word) 0 Stage.B1) }
{
    let b = word.bottom;
    if b == 0 {
        leaves(word, Next::Nil)
    } else {
        leaves(word, Next::Going(Stage::B2 { b }))
    }
}

// Store b−1 in bottom.
fn b2(word: PackedWord, b: u16) -> PackedStep
    ensures { unpacked_step result ≡ in_sixteen (row_of 0 0 (unpacked word) 0 (Stage.B2 b)) }
{
    let bottom = below(b);
    leaves(PackedWord { bottom, ..word }, Next::Going(Stage::B3 { b }))
}

// Load slot b−1.
fn b3(word: PackedWord, x: u16, b: u16) -> PackedStep
    ensures { unpacked_step result ≡ in_sixteen (row_of 0 0 (unpacked word) x (Stage.B3 b)) }
{
    leaves(word, Next::Going(Stage::B4 { b, x }))
}

// Load age as (t, g); b−1 > t: return the node.
fn b4(word: PackedWord, b: u16, x: u16) -> PackedStep
    ensures { unpacked_step result ≡ in_sixteen (row_of 0 0 (unpacked word) 0 (Stage.B4 b x)) }
{
    let t = word.age.top();
    let g = word.age.tag();
    if t < below(b) {
        leaves(word, Next::Node(x))
    } else {
        leaves(word, Next::Going(Stage::B5 { b, x, t, g }))
    }
}

// Store 0 in bottom; b−1 = t: go to B6; else B7.
fn b5(word: PackedWord, b: u16, x: u16, t: u16, g: u16) -> PackedStep
    ensures { unpacked_step result ≡ in_sixteen (row_of 0 0 (unpacked word) 0 (Stage.B5 b x t g)) }
{
    let emptied = PackedWord { bottom: 0, ..word };
    if below(b) == t {
        leaves(emptied, Next::Going(Stage::B6 { b, x, t, g }))
    } else {
        leaves(emptied, Next::Going(Stage::B7 { b, x, t, g }))
    }
}

// If age is still (t, g), age becomes (0, next g); changed: return the node; else B7.
fn b6(width: u8, word: PackedWord, b: u16, x: u16, t: u16, g: u16) -> PackedStep
    ensures { unpacked_step result ≡ in_sixteen (row_of width 0 (unpacked word) 0 (Stage.B6 b x t g)) }
{
    if same_age(word, t, g) {
        reset(width, word, t, g, Next::Node(x))
    } else {
        leaves(word, Next::Going(Stage::B7 { b, x, t, g }))
    }
}

// Store (0, next g) in age; return NIL.
fn b7(width: u8, word: PackedWord, t: u16, g: u16) -> PackedStep
    ensures { unpacked_step result ≡ in_sixteen (resets width (unpacked word) g Next.Nil) }
{
    reset(width, word, t, g, Next::Nil)
}

// The row of a stage.
pub(crate) fn row(sizes: Sizes, word: PackedWord, loaded: u16, stage: Stage) -> PackedStep
    ensures { unpacked_step result ≡ in_sixteen (row_of sizes.width sizes.size (unpacked word) loaded stage) }
{
    match stage {
        Stage::Idle => leaves(word, Next::Going(Stage::Idle)),
        Stage::P1 { node } => p1(sizes.size, word, node),
        Stage::P2 { node, b } => p2(word, node, b),
        Stage::P3 { b } => p3(word, b),
        Stage::T1 => t1(word),
        Stage::T2 { t, g } => t2(word, t, g),
        Stage::T3 { t, g, b } => t3(word, loaded, t, g, b),
        Stage::T4 { t, g, b, x } => t4(word, t, g, b, x),
        Stage::B1 => b1(word),
        Stage::B2 { b } => b2(word, b),
        Stage::B3 { b } => b3(word, loaded, b),
        Stage::B4 { b, x } => b4(word, b, x),
        Stage::B5 { b, x, t, g } => b5(word, b, x, t, g),
        Stage::B6 { b, x, t, g } => b6(sizes.width, word, b, x, t, g),
        Stage::B7 { t, g, .. } => b7(sizes.width, word, t, g),
    }
}

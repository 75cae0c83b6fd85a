// Programs in the mnemonics of the 8080, assembled when a constant is evaluated.

/// The bytes of a program, written as instructions of the 8080 with a `;` after each. A program begins at 0100H, and addresses are
/// absolute. `DB` writes single bytes. The opcodes are those of [8080 manual 1975, chapter 4].
///
/// ```
/// const HI: &[u8] = &program![MVI C,9; LXI D,0x0109; CALL 5; RET; DB b'H',b'i',b'$';];
/// ```
#[macro_export]
macro_rules! program {
    ([$($b:tt)*]) => { [$($b)*] };
    ([$($b:tt)*] NOP; $($r:tt)*) => { $crate::program!([$($b)* 0x00,] $($r)*) };
    ([$($b:tt)*] DAA; $($r:tt)*) => { $crate::program!([$($b)* 0x27,] $($r)*) };
    ([$($b:tt)*] STC; $($r:tt)*) => { $crate::program!([$($b)* 0x37,] $($r)*) };
    ([$($b:tt)*] HLT; $($r:tt)*) => { $crate::program!([$($b)* 0x76,] $($r)*) };
    ([$($b:tt)*] RET; $($r:tt)*) => { $crate::program!([$($b)* 0xc9,] $($r)*) };
    ([$($b:tt)*] XTHL; $($r:tt)*) => { $crate::program!([$($b)* 0xe3,] $($r)*) };
    ([$($b:tt)*] PCHL; $($r:tt)*) => { $crate::program!([$($b)* 0xe9,] $($r)*) };
    ([$($b:tt)*] ANI $n:expr; $($r:tt)*) => { $crate::program!([$($b)* 0xe6, $n,] $($r)*) };
    ([$($b:tt)*] CPI $n:expr; $($r:tt)*) => { $crate::program!([$($b)* 0xfe, $n,] $($r)*) };
    ([$($b:tt)*] SHLD $n:expr; $($r:tt)*) => { $crate::program!(word [$($b)* 0x22,] $n; $($r)*) };
    ([$($b:tt)*] LHLD $n:expr; $($r:tt)*) => { $crate::program!(word [$($b)* 0x2a,] $n; $($r)*) };
    ([$($b:tt)*] STA $n:expr; $($r:tt)*) => { $crate::program!(word [$($b)* 0x32,] $n; $($r)*) };
    ([$($b:tt)*] LDA $n:expr; $($r:tt)*) => { $crate::program!(word [$($b)* 0x3a,] $n; $($r)*) };
    ([$($b:tt)*] JNZ $n:expr; $($r:tt)*) => { $crate::program!(word [$($b)* 0xc2,] $n; $($r)*) };
    ([$($b:tt)*] JMP $n:expr; $($r:tt)*) => { $crate::program!(word [$($b)* 0xc3,] $n; $($r)*) };
    ([$($b:tt)*] JZ $n:expr; $($r:tt)*) => { $crate::program!(word [$($b)* 0xca,] $n; $($r)*) };
    ([$($b:tt)*] CALL $n:expr; $($r:tt)*) => { $crate::program!(word [$($b)* 0xcd,] $n; $($r)*) };
    ([$($b:tt)*] INR $x:tt; $($r:tt)*) => {
        $crate::program!([$($b)* 0x04 | $crate::register!($x) << 3,] $($r)*)
    };
    ([$($b:tt)*] DCR $x:tt; $($r:tt)*) => {
        $crate::program!([$($b)* 0x05 | $crate::register!($x) << 3,] $($r)*)
    };
    ([$($b:tt)*] SUB $x:tt; $($r:tt)*) => { $crate::program!([$($b)* 0x90 | $crate::register!($x),] $($r)*) };
    ([$($b:tt)*] SBB $x:tt; $($r:tt)*) => { $crate::program!([$($b)* 0x98 | $crate::register!($x),] $($r)*) };
    ([$($b:tt)*] ORA $x:tt; $($r:tt)*) => { $crate::program!([$($b)* 0xb0 | $crate::register!($x),] $($r)*) };
    ([$($b:tt)*] DAD $x:tt; $($r:tt)*) => {
        $crate::program!([$($b)* 0x09 | $crate::pair!($x) << 4,] $($r)*)
    };
    ([$($b:tt)*] DCX $x:tt; $($r:tt)*) => {
        $crate::program!([$($b)* 0x0b | $crate::pair!($x) << 4,] $($r)*)
    };
    ([$($b:tt)*] POP $x:tt; $($r:tt)*) => {
        $crate::program!([$($b)* 0xc1 | $crate::pair!($x) << 4,] $($r)*)
    };
    ([$($b:tt)*] PUSH $x:tt; $($r:tt)*) => {
        $crate::program!([$($b)* 0xc5 | $crate::pair!($x) << 4,] $($r)*)
    };
    ([$($b:tt)*] RST $n:literal; $($r:tt)*) => { $crate::program!([$($b)* 0xc7 | $n << 3,] $($r)*) };
    ([$($b:tt)*] MVI $x:tt,$n:expr; $($r:tt)*) => {
        $crate::program!([$($b)* 0x06 | $crate::register!($x) << 3, $n,] $($r)*)
    };
    ([$($b:tt)*] MOV $x:tt,$y:tt; $($r:tt)*) => {
        $crate::program!([$($b)* 0x40 | $crate::register!($x) << 3 | $crate::register!($y),] $($r)*)
    };
    ([$($b:tt)*] LXI $x:tt,$n:expr; $($r:tt)*) => {
        $crate::program!(word [$($b)* 0x01 | $crate::pair!($x) << 4,] $n; $($r)*)
    };
    ([$($b:tt)*] DB $($n:expr),+; $($r:tt)*) => { $crate::program!([$($b)* $($n,)+] $($r)*) };
    // A word, its low byte first.
    (word [$($b:tt)*] $n:expr; $($r:tt)*) => {
        $crate::program!([$($b)* ($n as u16 % 256) as u8, ($n as u16 / 256) as u8,] $($r)*)
    };
    ([$($b:tt)*] $($r:tt)+) => { compile_error!("no rule of `program!` has this instruction") };
    ($($program:tt)*) => { $crate::program!([] $($program)*) };
}

/// The number of a register in an opcode; M is the cell at HL.
#[macro_export]
macro_rules! register {
    (B) => { 0 };
    (C) => { 1 };
    (D) => { 2 };
    (E) => { 3 };
    (H) => { 4 };
    (L) => { 5 };
    (M) => { 6 };
    (A) => { 7 };
}

/// The number of a pair of registers in an opcode.
#[macro_export]
macro_rules! pair {
    (B) => { 0 };
    (D) => { 1 };
    (H) => { 2 };
    (SP) => { 3 };
    (PSW) => { 3 };
}

// An input kind: what one seat may do in one frame, and the codes that stand for it.
ghost use Rattle.std.specs.Prelude.{◌≡◌, ℕ, ◌<◌, Some, Option};

pub trait InputKind: Copy {
    // The code of an input.
    ghost code: { Self → ℕ };

    // The input that a code stands for, or nothing.
    ghost reads: { ℕ → Option Self };

    // Doing nothing: code 0.
    ghost idle: { Self };

    // The input that a code stands for, or nothing.
    fn read(number: u16) -> Option<Self>
        ensures { result ≡ reads number };

    fn code(self) -> u16
        ensures { result ≡ code self };

    fn idle() -> Self
        ensures { result ≡ idle };

    ghost code_fits: { (x : Self) → code x < 65536 };

    ghost reads_back: { (x : Self) → reads (code x) ≡ Some x };

    ghost code_of_read: { (n : ℕ) (x : Self) → reads n ≡ Some x → code x ≡ n };

    ghost idle_reads: { reads 0 ≡ Some idle };
}

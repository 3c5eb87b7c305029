// A copy that falls short where there is no room.
ghost use Rattle.std.specs.Prelude.{◌≡◌};
ghost use Rattle.std.proofs.lemmas.List.Edits.{sets};

// Copies what goes in from place `at` on: what falls past the end is not written.
pub fn copy_at<T: Copy>(to: &mut [T], at: usize, from: &[T])
    ensures { to.new ≡ sets to.old at from.now }
{
    let at = at.min(to.len());
    let n = from.len().min(to.len() - at);
    to[at..at + n].copy_from_slice(&from[..n]);
}

// Queues with a frame more or less.
ghost use Rattle.std.specs.Prelude.{◌≡◌};
ghost use Rattle.machine.specs.State.{waiting};
ghost use Rattle.effects.specs.Queues.{with_frame, without_head};

use machine::{Frame, Queue};

// A frame joins a queue behind those that wait. A queue without a free place stays as it is.
pub fn pushed<const N: usize>(q: Queue<N>, f: Frame) -> Queue<N>
    ensures { waiting result.count result.frames ≡ with_frame N f (waiting q.entry.count q.entry.frames) }
{
    let n = q.count;
    let mut r = q;
    if n < N {
        r.frames[n] = f;
        r.count = n + 1;
    }
    r
}

// The head has left a queue: those behind it move up. A queue with more frames than places stays as it is.
pub fn shifted<const N: usize>(q: Queue<N>) -> Queue<N>
    ensures { waiting result.count result.frames ≡ without_head N (waiting q.entry.count q.entry.frames) }
{
    let n = q.count;
    if n == 0 || N < n {
        return q;
    }
    let mut r = q;
    r.count = n - 1;
    r.frames.copy_within(1..n, 0);
    r
}

// The head of a queue.
ghost use Rattle.std.specs.Prelude.{◌≡◌};
ghost use Rattle.machine.specs.State.{no_frame, waiting};
ghost use Rattle.bytetime.specs.Ports.{head_of};

use machine::{Frame, NO_MARK, Queue};

// What stands for a frame where there is none. (No Option: that frame is the definitions' own, `head_of` and `frame_of`.)
pub fn no_frame() -> Frame
    ensures { result ≡ no_frame }
{
    Frame {
        source: NO_MARK,
        size: 0,
        taken: 0,
    }
}

// The head of a queue.
pub fn head<const N: usize>(q: Queue<N>) -> Frame
    ensures { result ≡ head_of (waiting q.entry.count q.entry.frames) }
{
    if q.count == 0 || N == 0 {
        return no_frame();
    }
    q.frames[0]
}

// The number of points, told apart before it is used.
ghost use Rattle.std.specs.Prelude.{◌≡◌};

// What f gives for p points. Each number has its own call, so that the compiled code has the weights of its row written into it.
pub fn by_points<R, F: Fn(usize) -> R>(p: usize, f: F) -> R
    requires { F.pre f p }
    ensures { F.post f p result }
{
    match p {
        1 => f(1),
        2 => f(2),
        3 => f(3),
        4 => f(4),
        5 => f(5),
        6 => f(6),
        7 => f(7),
        8 => f(8),
        9 => f(9),
        _ => f(p),
    }
}

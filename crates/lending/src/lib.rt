// How a call on a lent record comes from its step by value, once for every record, step and list of arguments; and that of whoever owns the record.
#![tactic(auto)]

// What a call on a lent record does: it takes the step by value, puts the record that the step gives back, and returns the step's answer. So the
// record that it leaves and its answer are a result of the step.
pub fn lent<S: Copy, A: Drop, R: Drop, F: FnOnce(S, A) -> (S, R)>(s: &mut S, a: A, step: F) -> R
    requires { F.pre step s.old a }
    ensures { F.post step s.old a (s.new, result) }
{
    let r = step(*s, a);
    *s = r.0;
    r.1
}

// The same for whoever owns the record: it lends its own to the call, and returns what the call leaves beside its answer.
pub fn own<S: Copy, A: Drop, R: Drop, F: FnOnce(S, A) -> (S, R)>(s: S, a: A, step: F) -> (S, R)
    requires { F.pre step s a }
    ensures { F.post step s a result }
{
    let mut session = s;
    let answer = lent(&mut session, a, step);
    (session, answer)
}

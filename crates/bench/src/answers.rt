// What the calls answer.
ghost use Rattle.std.specs.Prelude.{◌≡◌, IfOk, IfErr, is_ok};

use runs::Refusal;

// A refusal, with what was given up for the call handed back.
#[derive(Drop)]
pub struct Refused<T> {
    pub refusal: Refusal,
    pub given: T,
}

impl<T> Refused<T> {
    // What is given, if the test holds; else it is handed back with the refusal.
    pub(crate) fn unless(test: bool, refusal: Refusal, given: T) -> Result<T, Refused<T>>
        ensures granted { is_ok result ≡ test }
        ensures ok { IfOk result (λ x. x ≡ given) }
        ensures err { IfErr result (λ e. e ≡ record { refusal = refusal; given = given }) }
    {
        if test {
            Ok(given)
        } else {
            Err(Refused { refusal, given })
        }
    }
}

//! The streams of a run.

ghost use Rattle.std.specs.Prelude.{◌≡◌, false};
ghost use Rattle.tf_stream.specs.Told.{inner_of, has_failed};

use tf_session::Told;

/// Standard input, standard output and standard error. Each keeps whether a call of it failed.
#[derive(Drop)]
pub struct Streams<I, O, F> {
    pub input: Told<I>,
    pub output: Told<O>,
    pub errors: Told<F>,
}

impl<I, O, F> Streams<I, O, F> {
    /// Returns these streams, of which no call has failed yet.
    pub fn new(input: I, output: O, errors: F) -> Streams<I, O, F>
        ensures input { inner_of result.input ≡ input }
        ensures output { inner_of result.output ≡ output }
        ensures errors { inner_of result.errors ≡ errors }
        ensures output_not_failed { has_failed result.output ≡ false }
        ensures errors_not_failed { has_failed result.errors ≡ false }
    {
        Streams {
            input: Told::new(input),
            output: Told::new(output),
            errors: Told::new(errors),
        }
    }
}

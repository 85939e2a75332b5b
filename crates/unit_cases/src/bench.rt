// Both address books and all policies.
use crate::books;
use crate::call::Call;
use path_book::PathBook;
use policy::free::LowestFree;
use policy::lowest::Lowest;
use policy::offer::Offer;
use policy::rule::Policy;
use policy::turning::Turning;
use run_book::RunBook;
use std::alloc::AllocError;

#[derive(Drop)]
pub(crate) struct Bench {
    path: PathBook,
    run: RunBook,
    lowest: Lowest,
    free: LowestFree,
    turning: Turning,
}

impl Bench {
    pub(crate) fn new() -> Bench {
        Bench {
            path: PathBook::new(),
            run: RunBook::new(),
            lowest: Lowest,
            free: LowestFree,
            turning: Turning::new(),
        }
    }

    // Carries out a call and adds its answers to the output; a question mark for each book where a
    // line is no call.
    pub(crate) fn answer(
        &mut self,
        call: Option<Call>,
        output: &mut String,
    ) -> Result<(), AllocError> {
        match call {
            Some(Call::New) => {
                *self = Bench::new();
                output.push_str("new")
            }
            Some(Call::Ask(question)) => {
                books::answer(&mut self.path, &question, output)?;
                output.push(' ')?;
                books::answer(&mut self.run, &question, output)
            }
            Some(Call::Show(offer)) => self.show(offer, output),
            None => output.push_str("? ?"),
        }
    }

    // Shows an offer to each policy and adds the picks to the output.
    fn show(&mut self, offer: Offer, output: &mut String) -> Result<(), AllocError> {
        let lowest = self.lowest.pick(offer);
        let free = self.free.pick(offer);
        let turning = self.turning.pick(offer);
        write!(output, "{lowest} {free} {turning}")
    }
}

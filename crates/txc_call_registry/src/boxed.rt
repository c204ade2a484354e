//! A box acts as the function in it.
use crate::cacheable::{Cacheable, CallFault};
use txc_app::{Answer, Ask};

impl Cacheable for Box<dyn Cacheable + Send> {
    ghost number = { λ b. (Cacheable-box b).number b.value };

    ghost activity = { λ b. (Cacheable-box b).activity b.value };

    ghost says = { λ b. (Cacheable-box b).says b.value };

    fn number(&self) -> u8 {
        (**self).number()
    }

    fn begin(&mut self, args: &[u32]) -> Result<Ask, CallFault> {
        (**self).begin(args)
    }

    fn resume(&mut self, answer: Answer) -> Result<Ask, CallFault> {
        (**self).resume(answer)
    }

    fn release(&mut self) {
        (**self).release();
    }
}

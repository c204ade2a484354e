//! The lines of a batch's script: changes and pins, and then jobs.
ghost use Rattle.txc_script_batch.specs.BatchScripts.{batch_script};

use crate::batch::Batch;
use crate::order::Order;
use crate::prepared::PrepareError;
use crate::reading::read_order;
use std::alloc::{AllocError, Global};
use std::marker::PhantomData;
use txc_app::App;
use txc_call_registry::Cacheable;
use txc_script::{LineError, Script};
use txc_script_lines::OwnFault;
use txc_stamp::Stamp;

/// A batch's script. Its jobs run after all lines were executed.
pub struct BatchScript<A, C>(pub PhantomData<(A, C)>);

impl<A: App, C: Cacheable> Script for BatchScript<A, C> {
    type State = Batch<A, C>;

    type Asked = Order;

    type Reply = Option<Result<Stamp, PrepareError>>;

    type Fault = OwnFault;

    ghost kind = { λ _. batch_script };

    fn answer(
        &self,
        alloc: Global,
        state: &mut Batch<A, C>,
        line: &[u8],
        text: &mut Vec<u8>,
        why: &mut LineError<OwnFault>,
    ) -> Option<bool> {
        match read_order(alloc, state.jobs(), line) {
            Ok(order) => match state.run_line(alloc, order, text) {
                Ok(is_refused) => Some(is_refused),
                Err(_) => {
                    *why = LineError::Memory;
                    None
                }
            },
            Err(reason) => {
                *why = reason;
                None
            }
        }
    }

    // The jobs run after it: a method of a trait may start no thread.
    fn close(
        &self,
        alloc: Global,
        state: &mut Batch<A, C>,
        text: &mut Vec<u8>,
    ) -> Result<bool, AllocError> {
        Ok(false)
    }
}

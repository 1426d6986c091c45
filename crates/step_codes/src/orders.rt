//! The codes of orders: a byte that tells the kind, and the code of each field. The generation is
//! the number of the service's start that the order concerns. The descriptor is that on which `run`
//! says that it is ready.
use crate::coded::{Code, Coded};
use s6_events::{Name, Order, Sid};
use std::alloc::AllocError;

impl Coded for Order {
    ghost use Rattle.step_codes.specs.OrderCodes.{order_onto, FitsOrder};

    ghost onto = { order_onto };

    ghost fits = { FitsOrder };

    // Adds its code: a byte that tells the kind, the serial of the service, the generation, and
    // then what an order of this kind has beside.
    fn push(&self, code: &mut Vec<u8>) -> Result<(), AllocError> {
        match self {
            Order::Run(sid, generation, name, descriptor) => {
                code.push(0)?;
                sid.0.push(code)?;
                generation.push(code)?;
                name.push(code)?;
                descriptor.push(code)
            }
            Order::Finish(sid, generation, name, exit_code, signal) => {
                code.push(1)?;
                sid.0.push(code)?;
                generation.push(code)?;
                name.push(code)?;
                exit_code.push(code)?;
                signal.push(code)
            }
            Order::Signal(sid, generation, signal) => {
                code.push(2)?;
                sid.0.push(code)?;
                generation.push(code)?;
                signal.push(code)
            }
            Order::KillFinish(sid, generation) => {
                code.push(3)?;
                sid.0.push(code)?;
                generation.push(code)
            }
        }
    }

    // Reads an order by the byte of its kind: 0 starts `run`, 1 starts `finish`, 2 sends `run` a
    // signal, 3 kills `finish`.
    fn take(code: &mut Code<'_>) -> Order {
        let kind = code.take_byte();
        // Each kind has the service and its generation first.
        let sid = Sid(u64::take(code));
        let generation = u64::take(code);
        match kind {
            0 => {
                let name = Name::take(code);
                Order::Run(sid, generation, name, <Option<u8> as Coded>::take(code))
            }
            1 => {
                let name = Name::take(code);
                let exit_code = u16::take(code);
                Order::Finish(sid, generation, name, exit_code, u8::take(code))
            }
            2 => Order::Signal(sid, generation, u8::take(code)),
            _ => Order::KillFinish(sid, generation),
        }
    }
}

//! Where a kitchen's orders and its hatch lie, and what the cook does to both in one step.

ghost use Rattle.std.specs.Prelude.{◌≡◌, IfOk, length};
ghost use Rattle.kc_cells.specs.declared.mvar.MvarAct.TheVariants as MvarAct;
ghost use Rattle.kc_kitchen.specs.Kitchen.{HasKitchen};
ghost use Rattle.kc_queue.specs.declared.operation.QueueAct.TheVariants as QueueAct;

use kc_cells::{Mvar, MvarAct, MvarOp};
use kc_compose::{Fed, Feed};
use kc_lay::Layout;
use kc_queue::{Queue, QueueAct, QueueOp};
use std::alloc::{AllocError, Global};

/// Orders that wait for the cook, and the hatch, in which one dish fits.
#[derive(Clone, Copy)]
pub struct Kitchen {
    pub orders: Queue,
    pub hatch: Mvar,
}

/// A kitchen with room for four orders, and the layout in which it lies.
///
/// # Errors
///
/// - AllocError: there is no memory for the layout
pub fn lay_kitchen(alloc: Global) -> Result<(Kitchen, Layout), AllocError>
    ensures { IfOk result (λ t. HasKitchen t.0 (length t.1)) }
{
    let mut layout = Layout::new(alloc);
    let orders = layout.queue(4)?;
    let hatch = layout.mvar()?;
    Ok((Kitchen { orders, hatch }, layout))
}

/// Puts the dish of an order into the hatch, and waits while that is full.
#[derive(Clone, Copy)]
pub struct IntoHatch {
    pub hatch: Mvar,
}

impl Feed for IntoHatch {
    type Next = MvarOp;

    ghost fed = { λ i dish. record { mvar = i.hatch; act = MvarAct.Put dish } };

    fn feed(&self, dish: u32) -> MvarOp {
        MvarOp {
            mvar: self.hatch,
            act: MvarAct::Put(dish),
        }
    }
}

/// Takes the next order and puts its dish into the hatch, in one step: an order is never lost between the two. It waits while
/// there is no order, and while the hatch is full.
pub fn cook_next(kitchen: &Kitchen) -> Fed<QueueOp, IntoHatch>
    ensures { result ≡ record { first = record { queue = kitchen.now.orders; act = QueueAct.DeqWait }; behind = record { hatch = kitchen.now.hatch } } }
{
    Fed {
        first: QueueOp {
            queue: kitchen.orders,
            act: QueueAct::DeqWait,
        },
        behind: IntoHatch {
            hatch: kitchen.hatch,
        },
    }
}

//! What is kept of the receipts of a connection's messages.

use book_core::Receipt;
use std::alloc::{AllocError, Global};

/// What is kept of the receipts of a connection's messages.
pub trait ReceiptSink {
    ghost use Rattle.std.specs.Prelude.{List, [], ◌∷◌, ◌++◌, OnOk};
    ghost use Rattle.book_core.specs.declared.receipt.Receipt.{Receipt};

    /// These receipts were handed in, in this order.
    ghost has: { Self → List Receipt → Type 0 };

    /// There is room for one more.
    ghost has_room: { Self → Type 0 };

    /// A value to which no receipt was handed in yet.
    fn new(alloc: Global) -> Self
        ensures { has result [] };

    /// Makes room for one more.
    ///
    /// # Errors
    ///
    /// Where memory is refused; nothing changes then.
    fn reserve(&mut self) -> Result<(), AllocError>
        ensures same { (receipts : List Receipt) → has self.old receipts → has self.new receipts }
        ensures ok { OnOk result (has_room self.new) };

    /// Takes a receipt, for which there is room.
    fn keep(&mut self, receipt: Receipt)
        requires { has_room self.old }
        ensures { (receipts : List Receipt) → has self.old receipts → has self.new (receipts ++ receipt ∷ []) };
}

/// All receipts are kept, as an audit requires them.
impl ReceiptSink for Vec<Receipt> {
    ghost use Rattle.std.specs.Prelude.{◌≡◌, ◌<◌, vec_len, vec_capacity};

    ghost has = { λ kept receipts. kept.items ≡ receipts };

    ghost has_room = { λ kept. vec_len kept < vec_capacity kept };

    fn new(alloc: Global) -> Self {
        Vec::new(alloc)
    }

    fn reserve(&mut self) -> Result<(), AllocError> {
        self.reserve(1)
    }

    fn keep(&mut self, receipt: Receipt) {
        self.push_reserved(receipt);
    }
}

/// No receipt is kept, where nobody reads them.
#[derive(Clone, Copy, Drop)]
pub struct DiscardReceipts;

impl ReceiptSink for DiscardReceipts {
    ghost use Rattle.std.specs.Prelude.{⊤};

    ghost has = { λ _ _. ⊤ };

    ghost has_room = { λ _. ⊤ };

    fn new(_: Global) -> Self {
        DiscardReceipts
    }

    fn reserve(&mut self) -> Result<(), AllocError> {
        Ok(())
    }

    fn keep(&mut self, _: Receipt) {}
}

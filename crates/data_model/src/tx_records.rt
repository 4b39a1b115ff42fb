//! Transactions and their parts as records: how each is read at a place, and written.
use crate::records::{MAX_ARGS, MAX_STRING_LEN};
use crate::{Control, Input, Issue, Output, OutputBody, Retire, Spend, Tx};
use std::alloc::Global;
use wire::{Bytes, Cursor, DataFault, MAX_NUMBER, NoMemory, Record, Writer, layout_readings};

const MAX_INPUTS: u64 = 256;

const MAX_OUTPUTS: u64 = 256;

impl Record for OutputBody {
    ghost use Rattle.wire.specs.FirstFault.{FirstFault};
    ghost use Rattle.data_model.specs.Transaction.{body_layout, IsBody, body_spelling};
    ghost use Rattle.data_model.specs.TransactionReading.{body_at};

    ghost fits = { IsBody };

    ghost spelling = { body_spelling };

    ghost faults = { FirstFault body_layout };

    ghost reading = { body_at };

    fn read(alloc: Global, cursor: &mut Cursor<'_>) -> Result<OutputBody, DataFault> {
        Ok(OutputBody {
            source: cursor.id()?,
            position: cursor.number(MAX_NUMBER)?,
            asset: cursor.id()?,
            amount: cursor.amount(MAX_NUMBER)?,
            program: cursor.text(alloc, MAX_STRING_LEN)?,
            data_hash: cursor.id()?,
        })
    }

    #[tactic(auto, unfolding(crate::specs::Transaction::body_spelling))]
    fn write(&self, out: &mut Writer) -> Result<(), NoMemory> {
        out.raw(&self.source)?;
        out.number(self.position)?;
        out.raw(&self.asset)?;
        out.number(self.amount)?;
        out.text(self.program.as_slice())?;
        out.raw(&self.data_hash)
    }

    fn readings() {
        layout_readings();
    }
}

impl Record for Issue {
    ghost use Rattle.wire.specs.Layout.{spelling};
    ghost use Rattle.wire.specs.FirstFault.{FirstFault};
    ghost use Rattle.data_model.specs.Transaction.{issue_layout, issue_parts, IsIssue};
    ghost use Rattle.data_model.specs.TransactionReading.{issue_at};

    ghost fits = { IsIssue };

    ghost spelling = { λ issue. spelling issue_layout (issue_parts issue) };

    ghost faults = { FirstFault issue_layout };

    ghost reading = { issue_at };

    fn read(alloc: Global, cursor: &mut Cursor<'_>) -> Result<Issue, DataFault> {
        Ok(Issue {
            nonce: cursor.text(alloc, MAX_STRING_LEN)?,
            asset: cursor.id()?,
            amount: cursor.amount(MAX_NUMBER)?,
            program: cursor.text(alloc, MAX_STRING_LEN)?,
            definition: cursor.text(alloc, MAX_STRING_LEN)?,
            refdata: cursor.text(alloc, MAX_STRING_LEN)?,
            args: cursor.many::<Bytes>(alloc, MAX_ARGS, None)?,
        })
    }

    fn write(&self, out: &mut Writer) -> Result<(), NoMemory> {
        out.text(self.nonce.as_slice())?;
        out.raw(&self.asset)?;
        out.number(self.amount)?;
        out.text(self.program.as_slice())?;
        out.text(self.definition.as_slice())?;
        out.text(self.refdata.as_slice())?;
        out.many(self.args.as_slice())
    }

    fn readings() {
        layout_readings();
    }
}

impl Record for Spend {
    ghost use Rattle.wire.specs.Layout.{spelling};
    ghost use Rattle.wire.specs.FirstFault.{FirstFault};
    ghost use Rattle.data_model.specs.Transaction.{spend_layout, spend_parts, IsSpend};
    ghost use Rattle.data_model.specs.TransactionReading.{spend_at};

    ghost fits = { IsSpend };

    ghost spelling = { λ spend. spelling spend_layout (spend_parts spend) };

    ghost faults = { FirstFault spend_layout };

    ghost reading = { spend_at };

    fn read(alloc: Global, cursor: &mut Cursor<'_>) -> Result<Spend, DataFault> {
        Ok(Spend {
            from: OutputBody::read(alloc, cursor)?,
            refdata: cursor.text(alloc, MAX_STRING_LEN)?,
            args: cursor.many::<Bytes>(alloc, MAX_ARGS, None)?,
        })
    }

    #[tactic(auto, unfolding(crate::specs::Transaction::body_spelling))]
    fn write(&self, out: &mut Writer) -> Result<(), NoMemory> {
        self.from.write(out)?;
        out.text(self.refdata.as_slice())?;
        out.many(self.args.as_slice())
    }

    fn readings() {
        layout_readings();
    }
}

impl Record for Input {
    ghost use Rattle.wire.specs.Layout.{spelling};
    ghost use Rattle.wire.specs.FirstFault.{FirstFault};
    ghost use Rattle.data_model.specs.Transaction.{input_layout, input_parts, IsInput};
    ghost use Rattle.data_model.specs.TransactionReading.{input_at};

    ghost fits = { IsInput };

    ghost spelling = { λ input. spelling input_layout (input_parts input) };

    ghost faults = { FirstFault input_layout };

    ghost reading = { input_at };

    fn read(alloc: Global, cursor: &mut Cursor<'_>) -> Result<Input, DataFault> {
        match cursor.kind(2)? {
            0 => Ok(Input::Issue(Issue::read(alloc, cursor)?)),
            _ => Ok(Input::Spend(Spend::read(alloc, cursor)?)),
        }
    }

    fn write(&self, out: &mut Writer) -> Result<(), NoMemory> {
        match self {
            Input::Issue(issue) => {
                out.kind(0)?;
                issue.write(out)
            }
            Input::Spend(spend) => {
                out.kind(1)?;
                spend.write(out)
            }
        }
    }

    fn readings() {
        layout_readings();
    }
}

impl Record for Control {
    ghost use Rattle.wire.specs.Layout.{spelling};
    ghost use Rattle.wire.specs.FirstFault.{FirstFault};
    ghost use Rattle.data_model.specs.Transaction.{control_layout, control_parts, IsControl};
    ghost use Rattle.data_model.specs.TransactionReading.{control_at};

    ghost fits = { IsControl };

    ghost spelling = { λ control. spelling control_layout (control_parts control) };

    ghost faults = { FirstFault control_layout };

    ghost reading = { control_at };

    fn read(alloc: Global, cursor: &mut Cursor<'_>) -> Result<Control, DataFault> {
        Ok(Control {
            asset: cursor.id()?,
            amount: cursor.amount(MAX_NUMBER)?,
            program: cursor.text(alloc, MAX_STRING_LEN)?,
            refdata: cursor.text(alloc, MAX_STRING_LEN)?,
        })
    }

    fn write(&self, out: &mut Writer) -> Result<(), NoMemory> {
        out.raw(&self.asset)?;
        out.number(self.amount)?;
        out.text(self.program.as_slice())?;
        out.text(self.refdata.as_slice())
    }

    fn readings() {
        layout_readings();
    }
}

impl Record for Retire {
    ghost use Rattle.wire.specs.Layout.{spelling};
    ghost use Rattle.wire.specs.FirstFault.{FirstFault};
    ghost use Rattle.data_model.specs.Transaction.{retire_layout, retire_parts, IsRetire};
    ghost use Rattle.data_model.specs.TransactionReading.{retire_at};

    ghost fits = { IsRetire };

    ghost spelling = { λ retire. spelling retire_layout (retire_parts retire) };

    ghost faults = { FirstFault retire_layout };

    ghost reading = { retire_at };

    fn read(alloc: Global, cursor: &mut Cursor<'_>) -> Result<Retire, DataFault> {
        Ok(Retire {
            asset: cursor.id()?,
            amount: cursor.amount(MAX_NUMBER)?,
            refdata: cursor.text(alloc, MAX_STRING_LEN)?,
        })
    }

    fn write(&self, out: &mut Writer) -> Result<(), NoMemory> {
        out.raw(&self.asset)?;
        out.number(self.amount)?;
        out.text(self.refdata.as_slice())
    }

    fn readings() {
        layout_readings();
    }
}

impl Record for Output {
    ghost use Rattle.wire.specs.Layout.{spelling};
    ghost use Rattle.wire.specs.FirstFault.{FirstFault};
    ghost use Rattle.data_model.specs.Transaction.{output_layout, output_parts, IsOutput};
    ghost use Rattle.data_model.specs.TransactionReading.{output_at};

    ghost fits = { IsOutput };

    ghost spelling = { λ output. spelling output_layout (output_parts output) };

    ghost faults = { FirstFault output_layout };

    ghost reading = { output_at };

    fn read(alloc: Global, cursor: &mut Cursor<'_>) -> Result<Output, DataFault> {
        match cursor.kind(2)? {
            0 => Ok(Output::Control(Control::read(alloc, cursor)?)),
            _ => Ok(Output::Retire(Retire::read(alloc, cursor)?)),
        }
    }

    fn write(&self, out: &mut Writer) -> Result<(), NoMemory> {
        match self {
            Output::Control(control) => {
                out.kind(0)?;
                control.write(out)
            }
            Output::Retire(retire) => {
                out.kind(1)?;
                retire.write(out)
            }
        }
    }

    fn readings() {
        layout_readings();
    }
}

impl Record for Tx {
    ghost use Rattle.wire.specs.FirstFault.{FirstFault};
    ghost use Rattle.data_model.specs.Transaction.{tx_layout, IsTx, tx_spelling};
    ghost use Rattle.data_model.specs.TransactionReading.{next_tx_at};

    ghost fits = { IsTx };

    ghost spelling = { tx_spelling };

    ghost faults = { FirstFault tx_layout };

    ghost reading = { next_tx_at };

    fn read(alloc: Global, cursor: &mut Cursor<'_>) -> Result<Tx, DataFault> {
        Ok(Tx {
            version: cursor.number(MAX_NUMBER)?,
            mintime: cursor.number(MAX_NUMBER)?,
            maxtime: cursor.number(MAX_NUMBER)?,
            refdata: cursor.text(alloc, MAX_STRING_LEN)?,
            inputs: cursor.many::<Input>(alloc, MAX_INPUTS, None)?,
            outputs: cursor.many::<Output>(alloc, MAX_OUTPUTS, None)?,
        })
    }

    #[tactic(auto, unfolding(crate::specs::Transaction::tx_spelling))]
    fn write(&self, out: &mut Writer) -> Result<(), NoMemory> {
        out.number(self.version)?;
        out.number(self.mintime)?;
        out.number(self.maxtime)?;
        out.text(self.refdata.as_slice())?;
        out.many(self.inputs.as_slice())?;
        out.many(self.outputs.as_slice())
    }

    fn readings() {
        layout_readings();
    }
}

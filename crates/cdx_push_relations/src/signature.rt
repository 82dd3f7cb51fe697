//! Signatures.

use cdx_events::{List, OwnedName, Text, XmlEvent};
use cdx_leaf::{End, Rule, Start, XmlRecord};
use cdx_machine::{
    FoundChild, Frame, FrameMachine, Machine, NoMachine, Only, Or, PushRecord, RecordMachine,
    TextMachine,
};
use cdx_models::{SpecVersion, XmlReadError};
use cdx_signature::{Signature, SignaturePart, Signer, SignerPart};
use std::alloc::{AllocError, Global};

/// The children of a signer.
pub struct SignerChildren;

/// The machine of a signer.
#[derive(Drop)]
pub struct SignerMachine {
    machine: RecordMachine<SignerChildren>,
}

impl Machine for SignerMachine {
    ghost use Rattle.cdx_models.specs.Trees.{signer};
    ghost use Rattle.cdx_signature.specs.Records.{signer_tree};
    ghost use Rattle.cdx_schema.specs.Kinds.{a_record};

    type Value = Signer;

    ghost tree = { signer_tree };

    ghost kind = { a_record signer };

    ghost holds = { λ m. ⟦<RecordMachine<SignerChildren> as Machine>⟧.holds m.machine };

    fn start(opened: &Start<'_>) -> Result<SignerMachine, XmlReadError> {
        Ok(SignerMachine {
            machine: RecordMachine::<SignerChildren>::start(opened)?,
        })
    }

    fn step(&mut self, place: usize, event: &XmlEvent) -> Result<bool, XmlReadError> {
        self.machine.step(place, event)
    }

    fn finish(self, place: usize, event: &XmlEvent) -> Result<Signer, XmlReadError> {
        self.machine.finish(place, event)
    }
}

#[tactic(auto, unfolding(cdx_machine::proofs::OnRows::on_rows), using(cdx_machine::proofs::OnRows::by_rows))]
impl PushRecord for SignerChildren {
    ghost use Rattle.cdx_push_relations.specs.RecordKinds.{signer_kinds};

    type Record = Signer;

    type Child = Or<TextMachine, Only<TextMachine>>;

    ghost child_kinds = { signer_kinds };

    fn find(_part: &SignerPart, _version: SpecVersion, name: &OwnedName) -> FoundChild {
        match name.local_name.as_str() {
            "algorithm" => FoundChild::At(0),
            "value" => FoundChild::At(1),
            _ => FoundChild::Unknown,
        }
    }

    fn put(part: &mut SignerPart, _alloc: Global, value: Or<Text, Text>) -> Result<(), AllocError> {
        match value {
            Or::This(algorithm) => part.algorithm = Some(algorithm),
            Or::Other(value) => part.value = Some(value),
        }
        Ok(())
    }
}

/// Signers while they are read.
#[derive(Drop)]
pub struct BegunSigners {
    items: List<Signer>,
}

/// The machine of signers.
#[derive(Drop)]
pub struct SignersMachine {
    machine: FrameMachine<BegunSigners>,
}

impl Machine for SignersMachine {
    ghost use Rattle.cdx_models.specs.Trees.{signers};
    ghost use Rattle.cdx_signature.specs.Records.{signature_tree};
    ghost use Rattle.cdx_schema.specs.Kinds.{a_record};

    type Value = Signature;

    ghost tree = { signature_tree };

    ghost kind = { a_record signers };

    ghost holds = { λ m. ⟦<FrameMachine<BegunSigners> as Machine>⟧.holds m.machine };

    fn start(opened: &Start<'_>) -> Result<SignersMachine, XmlReadError> {
        Ok(SignersMachine {
            machine: FrameMachine::<BegunSigners>::start(opened)?,
        })
    }

    fn step(&mut self, place: usize, event: &XmlEvent) -> Result<bool, XmlReadError> {
        self.machine.step(place, event)
    }

    fn finish(self, place: usize, event: &XmlEvent) -> Result<Signature, XmlReadError> {
        self.machine.finish(place, event)
    }
}

#[tactic(auto, unfolding(cdx_machine::proofs::OnRows::on_rows), using(cdx_machine::proofs::OnRows::by_rows))]
impl Frame for BegunSigners {
    ghost use Rattle.std.specs.Prelude.{refl};
    ghost use Rattle.cdx_models.specs.Trees.{signers};
    ghost use Rattle.cdx_schema.specs.Kinds.{a_record};
    ghost use Rattle.cdx_schema.specs.XmlReading.{record_plan};
    ghost use Rattle.cdx_leaf.specs.RowContents.{content_from_rows};
    ghost use Rattle.cdx_signature.specs.Records.{signer_tree, signature_tree};
    ghost use Rattle.cdx_machine.specs.Plain.{attributes_first};
    ghost use Rattle.cdx_machine.specs.Records.{record_end, record_frame, items_slots};
    ghost use Rattle.cdx_push_relations.specs.Signatures.{signers_kinds};

    type Value = Signature;

    type Child = Or<SignerMachine, NoMachine>;

    ghost tree = { signature_tree };

    ghost kind = { a_record signers };

    ghost plan = { record_plan signers };

    ghost first = { attributes_first signers };

    ghost last = { record_end signers };

    ghost slots = { λ r. items_slots signer_tree r.items };

    ghost child_kinds = { signers_kinds };

    ghost frame = { record_frame signers (content_from_rows signers) refl };

    fn rule(&self) -> Rule {
        Rule::Strict
    }

    fn begin(opened: &Start<'_>) -> Result<BegunSigners, XmlReadError> {
        Ok(BegunSigners {
            items: List::new(opened.alloc),
        })
    }

    fn find(&self, _version: SpecVersion, name: &OwnedName) -> FoundChild {
        match name.local_name.as_str() {
            "signer" => FoundChild::At(0),
            _ => FoundChild::Unknown,
        }
    }

    fn put(&mut self, _alloc: Global, value: Or<Signer, NoMachine>) -> Result<(), AllocError> {
        match value {
            Or::This(signer) => self.items.push(signer),
            Or::Other(_) => Ok(()),
        }
    }

    fn finish(self, _closed: &End<'_>) -> Result<Signature, XmlReadError> {
        Ok(Signature::Signers(self.items))
    }
}

/// A chain while it is read.
#[derive(Drop)]
pub struct BegunChain {
    items: List<Signer>,
}

/// The machine of a chain.
#[derive(Drop)]
pub struct ChainMachine {
    machine: FrameMachine<BegunChain>,
}

impl Machine for ChainMachine {
    ghost use Rattle.cdx_models.specs.Trees.{chain};
    ghost use Rattle.cdx_signature.specs.Records.{signature_tree};
    ghost use Rattle.cdx_schema.specs.Kinds.{a_record};

    type Value = Signature;

    ghost tree = { signature_tree };

    ghost kind = { a_record chain };

    ghost holds = { λ m. ⟦<FrameMachine<BegunChain> as Machine>⟧.holds m.machine };

    fn start(opened: &Start<'_>) -> Result<ChainMachine, XmlReadError> {
        Ok(ChainMachine {
            machine: FrameMachine::<BegunChain>::start(opened)?,
        })
    }

    fn step(&mut self, place: usize, event: &XmlEvent) -> Result<bool, XmlReadError> {
        self.machine.step(place, event)
    }

    fn finish(self, place: usize, event: &XmlEvent) -> Result<Signature, XmlReadError> {
        self.machine.finish(place, event)
    }
}

#[tactic(auto, unfolding(cdx_machine::proofs::OnRows::on_rows), using(cdx_machine::proofs::OnRows::by_rows))]
impl Frame for BegunChain {
    ghost use Rattle.std.specs.Prelude.{refl};
    ghost use Rattle.cdx_models.specs.Trees.{chain};
    ghost use Rattle.cdx_schema.specs.Kinds.{a_record};
    ghost use Rattle.cdx_schema.specs.XmlReading.{record_plan};
    ghost use Rattle.cdx_leaf.specs.RowContents.{content_from_rows};
    ghost use Rattle.cdx_signature.specs.Records.{signer_tree, signature_tree};
    ghost use Rattle.cdx_machine.specs.Plain.{attributes_first};
    ghost use Rattle.cdx_machine.specs.Records.{record_end, record_frame, items_slots};
    ghost use Rattle.cdx_push_relations.specs.Signatures.{chain_kinds};

    type Value = Signature;

    type Child = Or<SignerMachine, NoMachine>;

    ghost tree = { signature_tree };

    ghost kind = { a_record chain };

    ghost plan = { record_plan chain };

    ghost first = { attributes_first chain };

    ghost last = { record_end chain };

    ghost slots = { λ r. items_slots signer_tree r.items };

    ghost child_kinds = { chain_kinds };

    ghost frame = { record_frame chain (content_from_rows chain) refl };

    fn rule(&self) -> Rule {
        Rule::Strict
    }

    fn begin(opened: &Start<'_>) -> Result<BegunChain, XmlReadError> {
        Ok(BegunChain {
            items: List::new(opened.alloc),
        })
    }

    fn find(&self, _version: SpecVersion, name: &OwnedName) -> FoundChild {
        match name.local_name.as_str() {
            "chain" => FoundChild::At(0),
            _ => FoundChild::Unknown,
        }
    }

    fn put(&mut self, _alloc: Global, value: Or<Signer, NoMachine>) -> Result<(), AllocError> {
        match value {
            Or::This(signer) => self.items.push(signer),
            Or::Other(_) => Ok(()),
        }
    }

    fn finish(self, _closed: &End<'_>) -> Result<Signature, XmlReadError> {
        Ok(Signature::Chain(self.items))
    }
}

/// A signature while it is read: the signers or the chain that was read last, and what was read of a single signer.
#[derive(Drop)]
pub struct BegunSignature {
    part: SignaturePart,
}

/// The machine of a signature.
pub struct SignatureMachine {
    machine: FrameMachine<BegunSignature>,
}

impl Drop for SignatureMachine {
    fn drop(self) {
        let SignatureMachine { machine: _ } = self;
    }
}

impl Machine for SignatureMachine {
    ghost use Rattle.cdx_signature.specs.Records.{signature_tree};
    ghost use Rattle.cdx_schema.specs.Kinds.{a_signature};

    type Value = Signature;

    ghost tree = { signature_tree };

    ghost kind = { a_signature };

    ghost holds = { λ m. ⟦<FrameMachine<BegunSignature> as Machine>⟧.holds m.machine };

    fn start(opened: &Start<'_>) -> Result<SignatureMachine, XmlReadError> {
        Ok(SignatureMachine {
            machine: FrameMachine::<BegunSignature>::start(opened)?,
        })
    }

    fn step(&mut self, place: usize, event: &XmlEvent) -> Result<bool, XmlReadError> {
        self.machine.step(place, event)
    }

    fn finish(self, place: usize, event: &XmlEvent) -> Result<Signature, XmlReadError> {
        let SignatureMachine { machine } = self;
        machine.finish(place, event)
    }
}

#[tactic(auto, unfolding(cdx_machine::proofs::OnRows::on_rows), using(cdx_machine::proofs::OnRows::by_rows))]
impl Frame for BegunSignature {
    ghost use Rattle.std.specs.Prelude.{refl};
    ghost use Rattle.cdx_schema.specs.Kinds.{a_signature};
    ghost use Rattle.cdx_schema.specs.XmlReading.{signature_plan};
    ghost use Rattle.cdx_signature.specs.Records.{signature_tree};
    ghost use Rattle.cdx_signature.specs.Parts.{signature_part};
    ghost use Rattle.cdx_push_relations.specs.Signatures.{signature_first, signature_last, signature_frame};

    type Value = Signature;

    type Child = Or<SignersMachine, Or<ChainMachine, Or<TextMachine, Only<TextMachine>>>>;

    ghost tree = { signature_tree };

    ghost kind = { a_signature };

    ghost plan = { signature_plan };

    ghost first = { signature_first };

    ghost last = { signature_last };

    ghost slots = { λ r. signature_part r.part };

    ghost child_kinds = { refl };

    ghost frame = { signature_frame };

    fn rule(&self) -> Rule {
        Rule::Strict
    }

    fn begin(_opened: &Start<'_>) -> Result<BegunSignature, XmlReadError> {
        Ok(BegunSignature {
            part: SignaturePart {
                list: None,
                signer: SignerPart {
                    algorithm: None,
                    value: None,
                },
            },
        })
    }

    fn find(&self, _version: SpecVersion, name: &OwnedName) -> FoundChild {
        match name.local_name.as_str() {
            "signers" => FoundChild::At(0),
            "chain" => FoundChild::At(1),
            "algorithm" => FoundChild::At(2),
            "value" => FoundChild::At(3),
            _ => FoundChild::Unknown,
        }
    }

    fn put(
        &mut self,
        _alloc: Global,
        value: Or<Signature, Or<Signature, Or<Text, Text>>>,
    ) -> Result<(), AllocError> {
        match value {
            Or::This(signers) => self.part.list = Some(signers),
            Or::Other(Or::This(chain)) => self.part.list = Some(chain),
            Or::Other(Or::Other(Or::This(algorithm))) => {
                self.part.signer.algorithm = Some(algorithm);
            }
            Or::Other(Or::Other(Or::Other(value))) => self.part.signer.value = Some(value),
        }
        Ok(())
    }

    fn finish(self, closed: &End<'_>) -> Result<Signature, XmlReadError> {
        let SignaturePart { list, signer } = self.part;
        match list {
            Some(list) => Ok(list),
            None => Ok(Signature::Single(Signer::finish(closed, signer)?)),
        }
    }
}

//! Signatures.

ghost use Rattle.cdx_models.specs.Trees.{signer};
ghost use Rattle.cdx_schema.specs.XmlReading.{record_plan, signature_plan};
ghost use Rattle.cdx_signature.specs.Parts.{signer_part, signature_part};
ghost use Rattle.std.specs.Prelude.{refl};
ghost use Rattle.cdx_leaf.specs.RowContents.{content_from_rows};

use crate::parts::{SignaturePart, SignerPart};
use crate::signature::{Algorithm, Signature, Signer};
use cdx_events::EventReader;
use cdx_leaf::{
    Children, End, FromXml, Reading, Rule, Start, Taken, XmlRecord, child_or_error, read_items,
    read_record, take_one,
};

impl Children for SignerPart {
    ghost slots = { signer_part };

    ghost plan = { λ r. record_plan signer };

    ghost depth = { λ r d. d };

    fn rule(&self) -> Rule {
        Rule::Strict
    }

    fn read_child(&mut self, reader: &mut EventReader<'_>, opened: &Start<'_>) -> Reading<Taken> {
        match opened.element.local_name.as_str() {
            "algorithm" => take_one(reader, opened, &mut self.algorithm),
            "value" => take_one(reader, opened, &mut self.value),
            _ => Ok(Taken::Unknown),
        }
    }
}

impl XmlRecord for Signer {
    type Part = SignerPart;

    ghost no_content = { content_from_rows signer };

    ghost by_rows = { λ part. (refl, refl) };

    fn begin(_opened: &Start<'_>) -> Reading<SignerPart> {
        Ok(SignerPart {
            algorithm: None,
            value: None,
        })
    }

    fn finish(closed: &End<'_>, part: SignerPart) -> Reading<Signer> {
        let algorithm = child_or_error(closed, part.algorithm, "algorithm")?;
        let value = child_or_error(closed, part.value, "value")?;
        Ok(Signer {
            algorithm: Algorithm::new_unchecked(closed.alloc, algorithm.as_str())?,
            value,
        })
    }
}

impl Children for SignaturePart {
    ghost slots = { signature_part };

    ghost plan = { λ r. signature_plan };

    ghost depth = { λ r d. d };

    fn rule(&self) -> Rule {
        Rule::Strict
    }

    fn read_child(&mut self, reader: &mut EventReader<'_>, opened: &Start<'_>) -> Reading<Taken> {
        match opened.element.local_name.as_str() {
            "signers" => {
                let signers = read_items(reader, opened, "signer", Rule::Strict)?;
                self.list = Some(Signature::Signers(signers));
                Ok(Taken::Read)
            }
            "chain" => {
                let chain = read_items(reader, opened, "chain", Rule::Strict)?;
                self.list = Some(Signature::Chain(chain));
                Ok(Taken::Read)
            }
            "algorithm" => take_one(reader, opened, &mut self.signer.algorithm),
            "value" => take_one(reader, opened, &mut self.signer.value),
            _ => Ok(Taken::Unknown),
        }
    }
}

/// The signers or the chain that stands last in the element, or else the single signer.
impl FromXml for Signature {
    ghost depth = { λ d. d };

    ghost at_top = { refl };

    fn read_from(reader: &mut EventReader<'_>, opened: &Start<'_>) -> Reading<Signature> {
        let begun = Ok(SignaturePart {
            list: None,
            signer: SignerPart {
                algorithm: None,
                value: None,
            },
        });
        let part: SignaturePart = read_record(reader, opened, begun)?;
        let SignaturePart { list, signer } = part;
        match list {
            Some(list) => Ok(list),
            None => {
                let single = Signer::finish(
                    &End {
                        alloc: opened.alloc,
                        place: reader.place() - 1,
                        version: opened.version,
                        element: opened.element,
                    },
                    signer,
                )?;
                Ok(Signature::Single(single))
            }
        }
    }
}

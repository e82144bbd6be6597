//! Laws of heads, frames and forms, as the contract of a function without code.

ghost use Rattle.dwg_base.specs.declared.version.Version.{Version};
ghost use Rattle.dwg_grammar.specs.Grammar.{IsLawful};
ghost use Rattle.dwg_object.specs.Heads.{head, HeadsAreOne};
ghost use Rattle.dwg_object.specs.FormLaws.{FormsAreOne, HeadsHaveForms, FormsHaveHeads, FormsAreValid, PartsFitNewer, ValidObjectsAreForms, WrittenFramesStand, WrittenFramesAreBytes};
ghost use Rattle.dwg_object.specs.FrameLaws.{FramesAreOne, FramesAreReported, FramesAreHeld};
ghost use Rattle.dwg_object.specs.OwnLaws.{OwnBodiesAreLawful, OwnBodiesAreOfTheirKind};
ghost use Rattle.dwg_object.specs.SpanLaws.{SpansAreReported};

/// What holds of heads, frames and forms in each version, for all bytes: heads are distinguished, and a body begins with one at the most. What a
/// kind has of its own is distinguished, and is of that kind. What is tried of a span and of a frame is what stands at the place or
/// the first line that refuses it, and nothing else; at a place there is one frame at the most. A body is read as one object
/// exactly where it has a head; what is read of one below 2^29 bytes is valid and written no longer, what is written of a valid
/// object is read as it, and where its frame stands its body is framed. Parts that fit in AC1014 fit in AC1015.
pub fn frame_laws()
    ensures head_lawful { (version : Version) → IsLawful (head version) }
    ensures one_head { HeadsAreOne }

    ensures own_lawful { OwnBodiesAreLawful }
    ensures own_kind { OwnBodiesAreOfTheirKind }

    ensures spans { SpansAreReported }
    ensures frames { FramesAreReported }
    ensures one_frame { FramesAreOne }
    ensures held { FramesAreHeld }

    ensures one_form { FormsAreOne }
    ensures form { HeadsHaveForms }
    ensures form_head { FormsHaveHeads }
    ensures valid { FormsAreValid }
    ensures written { ValidObjectsAreForms }
    ensures newer { PartsFitNewer }

    ensures framed { WrittenFramesStand }
    ensures bytes { WrittenFramesAreBytes }
{}

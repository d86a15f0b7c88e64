ghost use Rattle.std.specs.Prelude.{◌≡◌, ◌≢◌, IfSome, IfNone};

/// The kind of a value.
#[derive(Clone, Copy, Debug, PartialEq, Eq)]
pub enum ValueKind {
    Bool,
    Int,
    Long,
    Float,
    Double,
    Text,
    Texts,
}

impl ValueKind {
    ghost use Rattle.prefs_model.specs.declared.pref_value.PrefValue.{PrefValue};
    ghost use Rattle.prefs_text.specs.declared.value_kind.ValueKind.{ValueKind};
    ghost use Rattle.prefs_text.specs.ValueKind.{kind_name};

    /// The kind that the word names.
    pub fn from_name(word: &str) -> Option<ValueKind>
        ensures some { IfSome result (λ kind. word.now ≡ kind_name kind) }
        ensures none { IfNone result ((kind : ValueKind) → word.now ≢ kind_name kind) }
    {
        match word {
            "bool" => Some(ValueKind::Bool),
            "int" => Some(ValueKind::Int),
            "long" => Some(ValueKind::Long),
            "float" => Some(ValueKind::Float),
            "double" => Some(ValueKind::Double),
            "text" => Some(ValueKind::Text),
            "texts" => Some(ValueKind::Texts),
            _ => None,
        }
    }

    /// The word that names the kind.
    pub fn name(self) -> &'static str
        ensures { result.now ≡ kind_name self }
    {
        match self {
            ValueKind::Bool => "bool",
            ValueKind::Int => "int",
            ValueKind::Long => "long",
            ValueKind::Float => "float",
            ValueKind::Double => "double",
            ValueKind::Text => "text",
            ValueKind::Texts => "texts",
        }
    }
}

ghost use Rattle.rb_causes.specs.Texts.{truth_of};
ghost use Rattle.std.specs.Prelude.{◌≡◌};

/// What `true` and `false` say, and `None` for any other text; takes no memory.
pub fn truth_of(text: &str) -> Option<bool>
    ensures { result ≡ truth_of text.now }
{
    match text {
        "true" => Some(true),
        "false" => Some(false),
        _ => None,
    }
}

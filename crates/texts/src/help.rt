// What the program says of itself: a constant text.
ghost use Rattle.std.specs.Prelude.{◌≡◌};
ghost use Rattle.texts.specs.Help.{help_text};

pub fn help_text() -> &'static str
    ensures tells_every_command { result.now ≡ help_text }
{
    "Wenatik analyses knockout draws.\n\
     \n\
     with no argument   do the whole job on the built-in sheet\n\
     show FILE          show the sheet in FILE, or why it is refused and what to mend\n\
     help               show this text\n\
     \n\
     FILE is a sheet file: words of four bytes each, the head first."
}

//! What words and schemas are to one another.

ghost use Rattle.command_line.specs.DeclarationLaws.{BytesAreOneDeclaration, WordsDenoteOneSchema, FaultyWordsDenoteNothing, FirstFaultIsOne};

/// No bytes are a declaration in two ways.
pub fn bytes_are_one_declaration()
    ensures { BytesAreOneDeclaration }
{}

/// No words denote two schemas.
pub fn words_denote_one_schema()
    ensures { WordsDenoteOneSchema }
{}

/// Words of which one is at fault denote no schema.
pub fn faulty_words_denote_nothing()
    ensures { FaultyWordsDenoteNothing }
{}

/// No words go wrong first at two places.
pub fn first_fault_is_one()
    ensures { FirstFaultIsOne }
{}

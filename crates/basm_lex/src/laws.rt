//! Laws of printed words.

ghost use Rattle.basm_lex.specs.Laws.{ConstantsAreWritten, DistancesAreWritten, FirstIsTheName, IsOneLine, NamesAreWords, NumbersAreWords, NumbersAreWritten, OperandsAreWords, MemoryOperandsAreWritten, RegistersAreWords, RestAreTheOperands, SignedAreWritten};

/// What holds of printed words. The function does nothing: its contract is the laws.
pub fn printed_words()
    // Printed numbers, distances, memory operands and constants write their values.
    ensures number { NumbersAreWritten }
    ensures signed { SignedAreWritten }
    ensures distance { DistancesAreWritten }
    ensures place { MemoryOperandsAreWritten }
    ensures constant { ConstantsAreWritten }

    // Numbers and registers are words, and so are the name and the operands of an instruction.
    ensures numeral { NumbersAreWords }
    ensures register { RegistersAreWords }
    ensures name { NamesAreWords }
    ensures operands { OperandsAreWords }

    // A line of a name and operands has them as its words, and it is one line.
    ensures first { FirstIsTheName }
    ensures rest { RestAreTheOperands }
    ensures line { IsOneLine }
{}

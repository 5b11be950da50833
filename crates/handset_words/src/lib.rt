// What a call of the library returns and leaves in what it is lent: definitions, and the laws on refusals. No code.
#![tactic(auto)]

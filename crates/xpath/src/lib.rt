// Layer 4, xpath: what XPath says of eleven axes, with its laws; no code.
#![tactic(auto)]

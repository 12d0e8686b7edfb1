// No code: frames and a series worked by hand, each reply, record and byte proved to come out as its row says.

#![tactic(auto)]
